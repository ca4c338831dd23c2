ghost use Rattle.std.specs.Prelude.{◌≡◌, true, false, string_bytes};
ghost use Rattle.ii_base.specs.declared.schema.index_record_option.IndexRecordOption.TheVariants.{Basic};
ghost use Rattle.ii_base.specs.declared.schema.value_type.ValueType.TheVariants.{Str, Json};
ghost use Rattle.ii_base.specs.ValueTypes.{is_plain};

use super::index_record_option::IndexRecordOption;
use super::value_type::ValueType;
use std::alloc::AllocError;
use std::marker::Model;

/// The entry of a field in a schema.
#[derive(Drop)]
pub struct FieldEntry {
    name: String,
    value_type: ValueType,
    option: IndexRecordOption,
    is_indexed: bool,
    has_fieldnorms: bool,
    expands_dots: bool,
}

impl Model for FieldEntry {
    ghost use Rattle.std.specs.Prelude.{string_bytes};
    ghost use Rattle.ii_base.specs.Schema.{SchemaEntry};

    ghost Value = { SchemaEntry };

    ghost view = { λ e. record {
      name = string_bytes e.name;
      value_type = e.value_type;
      option = e.option;
      is_indexed = e.is_indexed;
      has_fieldnorms = e.has_fieldnorms;
      expands_dots = e.expands_dots;
    } };
}

impl Clone for FieldEntry {
    ghost use Rattle.std.specs.Prelude.{◌≡◌};

    ghost is_clone = { λ e copy. copy ≡ e };

    fn clone(&self) -> Result<FieldEntry, AllocError> {
        let name = self.name.clone()?;
        Ok(FieldEntry {
            name,
            value_type: self.value_type,
            option: self.option,
            is_indexed: self.is_indexed,
            has_fieldnorms: self.has_fieldnorms,
            expands_dots: self.expands_dots,
        })
    }
}

impl FieldEntry {
    /// Creates a text field. `option` is what it keeps of a term, and `norms` whether it has field norms.
    pub fn text(name: String, option: IndexRecordOption, norms: bool) -> FieldEntry
        ensures { result ≡ record {
          name = string_bytes name;
          value_type = Str;
          option = option;
          is_indexed = true;
          has_fieldnorms = norms;
          expands_dots = false;
        } }
    {
        FieldEntry {
            name,
            value_type: ValueType::Str,
            option,
            is_indexed: true,
            has_fieldnorms: norms,
            expands_dots: false,
        }
    }

    /// Creates a field of other values: `U64`, `I64`, `Bool`, `Date`, `Bytes` or `IpAddr`. Of a term it keeps
    /// only the documents.
    pub fn value(name: String, value_type: ValueType, norms: bool) -> FieldEntry
        requires { is_plain value_type ≡ true }
        ensures { result ≡ record {
          name = string_bytes name;
          value_type = value_type;
          option = Basic;
          is_indexed = true;
          has_fieldnorms = norms;
          expands_dots = false;
        } }
    {
        let mut entry = FieldEntry::unindexed(name, value_type);
        entry.is_indexed = true;
        entry.has_fieldnorms = norms;
        entry
    }

    /// Creates a field of JSON values, without field norms. If `expand_dots`, a dot in a key splits it in
    /// two.
    pub fn json(name: String, option: IndexRecordOption, expand_dots: bool) -> FieldEntry
        ensures { result ≡ record {
          name = string_bytes name;
          value_type = Json;
          option = option;
          is_indexed = true;
          has_fieldnorms = false;
          expands_dots = expand_dots;
        } }
    {
        FieldEntry {
            name,
            value_type: ValueType::Json,
            option,
            is_indexed: true,
            has_fieldnorms: false,
            expands_dots: expand_dots,
        }
    }

    /// Creates a field that isn't indexed.
    pub fn unindexed(name: String, value_type: ValueType) -> FieldEntry
        ensures { result ≡ record {
          name = string_bytes name;
          value_type = value_type;
          option = Basic;
          is_indexed = false;
          has_fieldnorms = false;
          expands_dots = false;
        } }
    {
        FieldEntry {
            name,
            value_type,
            option: IndexRecordOption::Basic,
            is_indexed: false,
            has_fieldnorms: false,
            expands_dots: false,
        }
    }

    /// Returns the name of the field.
    pub fn name(&self) -> &str
        ensures { result.now ≡ self.now.name }
    {
        self.name.as_str()
    }

    /// Returns the type of its values.
    pub fn value_type(&self) -> ValueType
        ensures { result ≡ self.now.value_type }
    {
        self.value_type
    }

    /// Returns what is kept of a term; `Basic` if the field has no texts or isn't indexed.
    pub fn index_record_option(&self) -> IndexRecordOption
        ensures { result ≡ self.now.option }
    {
        self.option
    }

    /// Returns whether it is indexed.
    pub fn is_indexed(&self) -> bool
        ensures { result ≡ self.now.is_indexed }
    {
        self.is_indexed
    }

    /// Returns whether it has field norms.
    pub fn has_fieldnorms(&self) -> bool
        ensures { result ≡ self.now.has_fieldnorms }
    {
        self.has_fieldnorms
    }

    /// Returns whether dots in the keys of its JSON values are expanded.
    pub fn expands_dots(&self) -> bool
        ensures { result ≡ self.now.expands_dots }
    {
        self.expands_dots
    }
}
