//! Members of the objects of a document, as they are read from the tokens of its text.

ghost use Rattle.std.specs.Prelude.{◌≡◌, List, ◌∷◌, IfOk, IfSome, IsTrue, option_map};
ghost use Rattle.json.specs.Token as text_token;
ghost use Rattle.json.specs.Reads.{token_of};
ghost use Rattle.serde_json.specs.{Data.{no_members}, Find.{get_member}};
ghost use Rattle.dsa_scenario.specs.Tokens.{data_of_leaf, data_of_part, put_all, Reads, ReadsMembers};

use crate::digits::whole_number;
use crate::objects::Object;
use json::{Reader, Token};
use std::alloc::AllocError;

/// A value that has no parts. Its number is whole and without sign.
#[derive(Clone, Copy, Drop)]
pub enum Leaf<'a> {
    Null,
    Truth(bool),
    Number(u64),
    Text(&'a str),
}

/// A leaf, or an object by its members, which are leaves.
#[derive(Clone, Copy, Drop)]
pub enum Part<'m, 'a> {
    Leaf(Leaf<'a>),
    Members(&'m [(&'a str, Leaf<'a>)]),
}

// The last leaf of this key.
#[inline(always)]
fn leaf_at<'a>(members: &[(&'a str, Leaf<'a>)], key: &str) -> Option<Leaf<'a>>
    ensures { option_map data_of_leaf result
        ≡ get_member key.now (put_all members.now no_members) }
{
    let mut left = members.len();
    while left > 0 {
        left -= 1;
        let (name, leaf) = members[left];
        if name == key {
            return Some(leaf);
        }
    }
    None
}

impl<'m, 'a> Object for Part<'m, 'a> {
    ghost stands_for = { data_of_part };

    #[inline(always)]
    fn get(&self, key: &str) -> Option<Part<'m, 'a>> {
        match *self {
            Part::Members(members) => Some(Part::Leaf(leaf_at(members, key)?)),
            Part::Leaf(_) => None,
        }
    }

    #[inline(always)]
    fn as_u64(&self) -> Option<u64> {
        match *self {
            Part::Leaf(Leaf::Number(number)) => Some(number),
            _ => None,
        }
    }

    #[inline(always)]
    fn as_bool(&self) -> Option<bool> {
        match *self {
            Part::Leaf(Leaf::Truth(truth)) => Some(truth),
            _ => None,
        }
    }

    #[inline(always)]
    fn as_str(&self) -> Option<&str> {
        match *self {
            Part::Leaf(Leaf::Text(text)) => Some(text),
            _ => None,
        }
    }
}

// The leaf that the token is.
#[inline(always)]
#[tactic(auto, using(crate::proofs::Tokens::reads_number))]
fn leaf_of<'a>(token: Token<'a>) -> Option<Leaf<'a>>
    ensures { IfSome result
        (λ leaf. (new : List text_token.Token)
        → Reads 0 (token_of token.entry ∷ new) (data_of_leaf leaf) new) }
{
    match token {
        Token::String(text) => Some(Leaf::Text(text)),
        Token::Number(text) => Some(Leaf::Number(whole_number(text)?)),
        Token::Bool(truth) => Some(Leaf::Truth(truth)),
        Token::Null => Some(Leaf::Null),
        _ => None,
    }
}

/// The next value, where it is a leaf.
#[inline(always)]
pub fn read_leaf<'a>(reader: &mut Reader<'a>) -> Option<Leaf<'a>>
    ensures { IfSome result (λ leaf. Reads 0 reader.old (data_of_leaf leaf) reader.new) }
{
    leaf_of(reader.next()?)
}

/// Reads the members behind a brace as far as the one that closes it. Says whether all are leaves.
#[inline(never)]
pub fn read_members<'a>(
    reader: &mut Reader<'a>,
    members: &mut Vec<(&'a str, Leaf<'a>)>,
) -> Result<bool, AllocError>
    ensures { IfOk result
        (λ all. IsTrue all → ReadsMembers 0 reader.old no_members
        (put_all members.new.items no_members) reader.new) }
{
    members.clear();
    loop {
        let Ok(next) = reader.next_key() else {
            return Ok(false);
        };
        let Some(key) = next else {
            return Ok(true);
        };
        let Some(leaf) = read_leaf(reader) else {
            return Ok(false);
        };
        members.push((key, leaf))?;
    }
}
