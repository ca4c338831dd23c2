//! What a score is made of, as text.
ghost use Rattle.std.specs.Prelude.{◌≡◌, ◌++◌, OnOk, map, string_bytes};
ghost use Rattle.std.specs.List.{join_with_byte};
ghost use Rattle.ii_io.specs.Faults.{OnlyMemory};
ghost use Rattle.ii_ranking.specs.Shares.{share_of};
ghost use Rattle.nequllpa_opening.specs.RowFormats.{is_json};
ghost use Rattle.nequllpa_searching.specs.ShareTexts.{count_members, object_of, share_line, share_object, shares_text};

use ii_base::{Fault, Schema};
use ii_documents::quoted;
use ii_explanation::{push_part, push_score, push_weight};
use ii_fieldnorm::FieldNormReader;
use ii_ranking::Share;
use nequllpa_opening::RowFormat;
use std::alloc::{AllocError, Global};

/// Appends what a score is made of: an indented line for each share, or a member `explain` of a JSON object, with an
/// object for each. A line has the share, and each after a tab its weight, count, norm and part of the query; an
/// object has `query`, `weight`, `weight_units`, the weight in units of 2^-22, `count`, `norm`, `share`, and `units`, the
/// share in units of 2^-38.
pub(crate) fn push_shares(
    alloc: Global,
    text: &mut String,
    schema: &Schema,
    format: RowFormat,
    shares: &[Share<'_>],
) -> Result<(), Fault>
    ensures text { OnOk result (string_bytes text.new ≡ string_bytes text.old ++ shares_text (is_json format) schema.now (map share_of shares.now)) }
    ensures only { OnlyMemory result }
{
    if format.is_json() {
        text.push_str(",\"explain\":[")?;
        push_objects(alloc, text, schema, shares)?;
        text.push_str("]")?;
        return Ok(());
    }
    for share in shares {
        push_line(alloc, text, schema, share)?;
    }
    Ok(())
}

// Appends a share as an indented line.
fn push_line(
    alloc: Global,
    text: &mut String,
    schema: &Schema,
    share: &Share<'_>,
) -> Result<(), Fault>
    ensures text { OnOk result (string_bytes text.new ≡ string_bytes text.old ++ share_line schema.now (share_of share.now)) }
    ensures only { OnlyMemory result }
{
    text.push_str("    ")?;
    push_score(text, share.score)?;
    text.push_str("\tweight ")?;
    push_weight(text, share.weight)?;
    let norm = FieldNormReader::id_to_fieldnorm(share.fieldnorm_id);
    write!(text, "\tcount {}\tnorm {norm}\t", share.count)?;
    push_part(alloc, text, schema, share.part)?;
    text.push_str("\n")?;
    Ok(())
}

// Appends shares as JSON objects, with a comma between two.
fn push_objects(
    alloc: Global,
    text: &mut String,
    schema: &Schema,
    shares: &[Share<'_>],
) -> Result<(), Fault>
    ensures text { OnOk result (string_bytes text.new ≡ string_bytes text.old ++ join_with_byte 44 (map (share_object schema.now) (map share_of shares.now))) }
    ensures only { OnlyMemory result }
{
    let Some((first, others)) = shares.split_first() else {
        return Ok(());
    };
    push_object(alloc, text, schema, first)?;
    for share in others {
        text.push_str(",")?;
        push_object(alloc, text, schema, share)?;
    }
    Ok(())
}

// Appends a share as a JSON object.
fn push_object(
    alloc: Global,
    text: &mut String,
    schema: &Schema,
    share: &Share<'_>,
) -> Result<(), Fault>
    ensures text { OnOk result (string_bytes text.new ≡ string_bytes text.old ++ share_object schema.now (share_of share.now)) }
    ensures only { OnlyMemory result }
{
    let mut part = String::new(alloc);
    push_part(alloc, &mut part, schema, share.part)?;
    let query = quoted(alloc, part.as_str())?;
    push_object_of(text, query.as_str(), share)?;
    Ok(())
}

// Appends a share as a JSON object, given the text of its part as a JSON string.
fn push_object_of(text: &mut String, query: &str, share: &Share<'_>) -> Result<(), AllocError>
    ensures { OnOk result (string_bytes text.new ≡ string_bytes text.old ++ object_of query.now (share_of share.now)) }
{
    text.push_str("{\"query\":")?;
    text.push_str(query)?;
    text.push_str(",\"weight\":")?;
    push_weight(text, share.weight)?;
    push_count_members(text, share)?;
    text.push_str(",\"share\":")?;
    push_score(text, share.score)?;
    text.push_str(",\"units\":")?;
    write!(text, "{}", share.score)?;
    text.push_str("}")?;
    Ok(())
}

// Appends the weight of a share in units, its count and its norm, as members of a JSON object.
fn push_count_members(text: &mut String, share: &Share<'_>) -> Result<(), AllocError>
    ensures { OnOk result (string_bytes text.new ≡ string_bytes text.old ++ count_members (share_of share.now)) }
{
    write!(text, ",\"weight_units\":{}", share.weight)?;
    write!(text, ",\"count\":{}", share.count)?;
    let norm = FieldNormReader::id_to_fieldnorm(share.fieldnorm_id);
    write!(text, ",\"norm\":{norm}")?;
    Ok(())
}
