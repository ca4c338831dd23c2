ghost use Rattle.std.specs.Prelude.{◌≡◌, ◌++◌, ◌∷◌, [], IfOk, List, map};
ghost use Rattle.std.specs.Option.{option_map};
ghost use Rattle.ii_query_grammar.specs.Parsed.{ChainState, IsSingle, IsWhole, OnlyMemoryRefuses, all_tree, any_tree, chain_and, chain_and_not, chain_of, chain_state, chain_tree, chained, empty, group_of, put, put_and, put_minus, put_or, whole, whole_of, with_chain_tree, without_any};
ghost use Rattle.ii_query_grammar.specs.Trees.{ast_of};

use crate::parse_error::{Expected, ParseError};
use crate::user_input_ast::UserInputAst;
use std::alloc::Global;

/// Parts joined by AND: those that must match, and those that must not.
#[derive(Drop)]
struct Chain {
    wanted: Vec<UserInputAst>,
    excluded: Vec<UserInputAst>,
}

/// The parser's place in a group.
#[derive(Drop)]
enum Place {
    Begins,
    Chained(Chain),
    AfterAnd(Chain),
    AfterAndMinus(Chain),
    AfterOr,
    AfterMinus,
}

/// The parts read so far, of a query or of one in parentheses.
pub(crate) struct Group {
    wanted: Vec<UserInputAst>,
    excluded: Vec<UserInputAst>,
    place: Place,
}

// Makes each drop a call.
impl Drop for Group {
    fn drop(self) {
        let Group {
            wanted: _,
            excluded: _,
            place: _,
        } = self;
    }
}

impl Chain {
    // Creates a chain of one part.
    fn new(alloc: Global, ast: UserInputAst) -> Result<Chain, ParseError>
        ensures chain { IfOk result (λ chain. chain_state chain ≡ chain_of (ast_of ast)) }
        ensures only { OnlyMemoryRefuses result }
    {
        let mut wanted = Vec::new(alloc);
        wanted.push(ast)?;
        Ok(Chain {
            wanted,
            excluded: Vec::new(alloc),
        })
    }

    // Appends a part that must match.
    fn and(self, ast: UserInputAst) -> Result<Chain, ParseError>
        ensures chain { IfOk result (λ chain. chain_state chain ≡ chain_and (chain_state self) (ast_of ast)) }
        ensures only { OnlyMemoryRefuses result }
    {
        Ok(Chain {
            wanted: pushed(self.wanted, ast)?,
            excluded: self.excluded,
        })
    }

    // Appends a part that must not match.
    fn and_not(self, ast: UserInputAst) -> Result<Chain, ParseError>
        ensures chain { IfOk result (λ chain. chain_state chain ≡ chain_and_not (chain_state self) (ast_of ast)) }
        ensures only { OnlyMemoryRefuses result }
    {
        Ok(Chain {
            excluded: pushed(self.excluded, ast)?,
            wanted: self.wanted,
        })
    }

    // Returns the tree of the chain.
    fn into_tree(self, alloc: Global) -> Result<UserInputAst, ParseError>
        ensures tree { IfOk result (λ ast. ast_of ast ≡ chain_tree (chain_state self)) }
        ensures only { OnlyMemoryRefuses result }
    {
        let Chain { wanted, excluded } = self;
        without_any(alloc, all_tree(wanted), excluded)
    }
}

impl Group {
    /// Creates a group without parts.
    pub(crate) fn new(alloc: Global) -> Group
        ensures { group_of result ≡ empty }
    {
        Group {
            wanted: Vec::new(alloc),
            excluded: Vec::new(alloc),
            place: Place::Begins,
        }
    }

    /// Appends a part. Fails only with `OutOfMemory`.
    pub(crate) fn put(self, alloc: Global, ast: UserInputAst) -> Result<Group, ParseError>
        ensures put { IfOk result (λ group. group_of group ≡ put (group_of self) (ast_of ast)) }
        ensures only { OnlyMemoryRefuses result }
    {
        let Group {
            wanted,
            excluded,
            place,
        } = self;
        match place {
            Place::Begins | Place::AfterOr => {
                let chain = Chain::new(alloc, ast)?;
                Ok(Group::chained(wanted, excluded, chain))
            }
            Place::Chained(chain) => {
                let wanted = with_chain_tree(alloc, wanted, chain)?;
                let chain = Chain::new(alloc, ast)?;
                Ok(Group::chained(wanted, excluded, chain))
            }
            Place::AfterAnd(chain) => Ok(Group::chained(wanted, excluded, chain.and(ast)?)),
            Place::AfterAndMinus(chain) => Ok(Group::chained(
                wanted,
                excluded,
                chain.and_not(ast)?,
            )),
            Place::AfterMinus => {
                let excluded = pushed(excluded, ast)?;
                Ok(Group {
                    wanted,
                    excluded,
                    place: Place::Begins,
                })
            }
        }
    }

    // Creates a group after a chain.
    fn chained(wanted: Vec<UserInputAst>, excluded: Vec<UserInputAst>, chain: Chain) -> Group
        ensures { group_of result ≡ record { wanted = map ast_of wanted.items; excluded = map ast_of excluded.items; place = chained (chain_state chain) } }
    {
        Group {
            wanted,
            excluded,
            place: Place::Chained(chain),
        }
    }

    /// Returns the group after an AND, if one is allowed here.
    pub(crate) fn put_and(self) -> Option<Group>
        ensures { option_map group_of result ≡ put_and (group_of self) }
    {
        let Group {
            wanted,
            excluded,
            place,
        } = self;
        let Place::Chained(chain) = place else {
            return None;
        };
        Some(Group {
            wanted,
            excluded,
            place: Place::AfterAnd(chain),
        })
    }

    /// Returns the group after an OR, or `Ok(None)` if none is allowed here. Fails only with `OutOfMemory`.
    pub(crate) fn put_or(self, alloc: Global) -> Result<Option<Group>, ParseError>
        ensures put { IfOk result (λ group. option_map group_of group ≡ put_or (group_of self)) }
        ensures only { OnlyMemoryRefuses result }
    {
        let Group {
            wanted,
            excluded,
            place,
        } = self;
        let Place::Chained(chain) = place else {
            return Ok(None);
        };
        let wanted = with_chain_tree(alloc, wanted, chain)?;
        Ok(Some(Group {
            wanted,
            excluded,
            place: Place::AfterOr,
        }))
    }

    /// Returns the group after a minus, or `Ok(None)` if none is allowed here. Fails only with
    /// `OutOfMemory`.
    pub(crate) fn put_minus(self, alloc: Global) -> Result<Option<Group>, ParseError>
        ensures put { IfOk result (λ group. option_map group_of group ≡ put_minus (group_of self)) }
        ensures only { OnlyMemoryRefuses result }
    {
        let Group {
            wanted,
            excluded,
            place,
        } = self;
        match place {
            Place::Begins => Ok(Some(Group {
                wanted,
                excluded,
                place: Place::AfterMinus,
            })),
            Place::Chained(chain) => {
                let wanted = with_chain_tree(alloc, wanted, chain)?;
                Ok(Some(Group {
                    wanted,
                    excluded,
                    place: Place::AfterMinus,
                }))
            }
            Place::AfterAnd(chain) => Ok(Some(Group {
                wanted,
                excluded,
                place: Place::AfterAndMinus(chain),
            })),
            Place::AfterAndMinus(_) | Place::AfterOr | Place::AfterMinus => Ok(None),
        }
    }

    /// Returns the tree of the complete group, or `Syntax` with what is expected at `at`.
    pub(crate) fn whole(self, alloc: Global, at: usize) -> Result<UserInputAst, ParseError>
        ensures { IsWhole at (whole_of (group_of self)) result }
    {
        let Group {
            wanted,
            excluded,
            place,
        } = self;
        match place {
            Place::Begins => whole(alloc, wanted, excluded, at),
            Place::Chained(chain) => {
                let wanted = with_chain_tree(alloc, wanted, chain)?;
                whole(alloc, wanted, excluded, at)
            }
            Place::AfterAnd(_) | Place::AfterOr => Err(ParseError::Syntax(Expected::Operand, at)),
            Place::AfterAndMinus(_) | Place::AfterMinus => {
                Err(ParseError::Syntax(Expected::Excluded, at))
            }
        }
    }
}

// Returns the wanted trees without the excluded ones. There must be a wanted tree.
fn whole(
    alloc: Global,
    wanted: Vec<UserInputAst>,
    excluded: Vec<UserInputAst>,
    at: usize,
) -> Result<UserInputAst, ParseError>
    ensures { IsWhole at (whole (map ast_of wanted.items) (map ast_of excluded.items)) result }
{
    if !wanted.is_empty() {
        return without_any(alloc, any_tree(wanted), excluded);
    }
    if excluded.is_empty() {
        return Err(ParseError::Syntax(Expected::Query, at));
    }
    Err(ParseError::Syntax(Expected::Included, at))
}

// Returns the tree that matches what all trees match; a single tree itself.
fn all_tree(trees: Vec<UserInputAst>) -> UserInputAst
    ensures { ast_of result ≡ all_tree (map ast_of trees.items) }
{
    match single(trees) {
        Ok(ast) => ast,
        Err(trees) => UserInputAst::And(trees),
    }
}

// Returns the tree that matches what at least one tree matches; a single tree itself.
fn any_tree(trees: Vec<UserInputAst>) -> UserInputAst
    ensures { ast_of result ≡ any_tree (map ast_of trees.items) }
{
    match single(trees) {
        Ok(ast) => ast,
        Err(trees) => UserInputAst::Or(trees),
    }
}

// Returns the only element of a list, or else the list.
fn single(mut trees: Vec<UserInputAst>) -> Result<UserInputAst, Vec<UserInputAst>>
    ensures { IsSingle trees.items result }
{
    if trees.len() != 1 {
        return Err(trees);
    }
    match trees.pop() {
        Some(ast) => Ok(ast),
        None => Err(trees),
    }
}

// Returns a tree without what the excluded ones match. Fails only with `OutOfMemory`.
fn without_any(
    alloc: Global,
    ast: UserInputAst,
    excluded: Vec<UserInputAst>,
) -> Result<UserInputAst, ParseError>
    ensures tree { IfOk result (λ both. ast_of both ≡ without_any (ast_of ast) (map ast_of excluded.items)) }
    ensures only { OnlyMemoryRefuses result }
{
    if excluded.is_empty() {
        return Ok(ast);
    }
    let first = Box::new(alloc, ast)?;
    let other = Box::new(alloc, any_tree(excluded))?;
    Ok(UserInputAst::AndNot(first, other))
}

// Appends the tree of a chain. Fails only with `OutOfMemory`.
fn with_chain_tree(
    alloc: Global,
    trees: Vec<UserInputAst>,
    chain: Chain,
) -> Result<Vec<UserInputAst>, ParseError>
    ensures trees { IfOk result (λ all. map ast_of all.items ≡ with_chain_tree (map ast_of trees.items) (chain_state chain)) }
    ensures only { OnlyMemoryRefuses result }
{
    let ast = chain.into_tree(alloc)?;
    pushed(trees, ast)
}

// Appends a tree. Fails only with `OutOfMemory`.
fn pushed(mut trees: Vec<UserInputAst>, ast: UserInputAst) -> Result<Vec<UserInputAst>, ParseError>
    ensures pushed { IfOk result (λ all. map ast_of all.items ≡ map ast_of trees.items ++ ast_of ast ∷ []) }
    ensures only { OnlyMemoryRefuses result }
{
    trees.push(ast)?;
    Ok(trees)
}
