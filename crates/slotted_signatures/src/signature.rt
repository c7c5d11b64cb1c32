//! One way in which an operator may be used, as an example shows it.
ghost use Rattle.std.specs.Prelude.{◌≡◌, ◌↔◌, map, IsTrue, IfOk, IfErr};
ghost use Rattle.std.specs.List.{list_all};
ghost use Rattle.slotted_slots.specs.Error.{IsOutOfMemory};
ghost use Rattle.slotted_patterns.specs.Tree.{row_of};
ghost use Rattle.slotted_patterns.specs.View.{tree_of};
ghost use Rattle.slotted_symbols.specs.SymbolForms.{symbol_form};
ghost use Rattle.slotted_signatures.specs.Kinds.{number, number_of};
ghost use Rattle.slotted_signatures.specs.UsedAsDeclared.{MayFollow, Takes};
ghost use Rattle.slotted_signatures.specs.OwnExamples.{ExamplesAreRight};
ghost use Rattle.slotted_signatures.specs.Shown.{has_more, is_child, is_dots, is_word, last_of, passes, shown_by, usage_of};

use crate::kind::{Kind, kind_of, kinds_of};
use slotted_patterns::Pattern;
use slotted_slots::Error;
use slotted_symbols::{Argument, SymbolLang};
use std::alloc::Global;
use std::marker::Model;

/// One way in which an operator may be used, as an example shows it.
///
/// `(sum count $i body)` shows that `sum` takes a child, a slot and a child. `(and ..)` shows that `and` takes any
/// number of children.
#[derive(Drop, Debug)]
pub struct Signature {
    word: String,
    kinds: Vec<Kind>,
    more: bool,
    example: String,
}

impl Model for Signature {
    ghost use Rattle.std.specs.Prelude.{map, string_bytes};
    ghost use Rattle.slotted_signatures.specs.Kinds.{number};
    ghost use Rattle.slotted_signatures.specs.Usage.{Usage};

    ghost Value = { Usage };

    ghost view = { λ s. record {
      word = string_bytes s.word;
      kinds = map number s.kinds.items;
      more = s.more;
      example = string_bytes s.example;
    } };
}

// Returns whether the pattern is a word alone.
fn is_word(pattern: &Pattern<SymbolLang>) -> bool
    ensures { result ≡ is_word (tree_of symbol_form pattern.now) }
{
    match pattern {
        Pattern::ENode(node, children) => node.arguments().is_empty() && children.is_empty(),
        _ => false,
    }
}

// Returns whether each pattern is a word alone.
fn are_words(patterns: &[Pattern<SymbolLang>]) -> bool
    ensures { result ≡ list_all is_word (map (tree_of symbol_form) patterns.now) }
{
    patterns.iter().all(is_word)
}

// Returns whether the pattern is an e-node of the word `..`.
fn is_dots(pattern: &Pattern<SymbolLang>) -> bool
    ensures { result ≡ is_dots (tree_of symbol_form pattern.now) }
{
    match pattern {
        Pattern::ENode(node, _) => node.word() == "..",
        _ => false,
    }
}

// Returns whether the last pattern is an e-node of the word `..`.
fn ends_in_dots(patterns: &[Pattern<SymbolLang>]) -> bool
    ensures { result ≡ passes is_dots (last_of (map (tree_of symbol_form) patterns.now)) }
{
    match patterns.last() {
        Some(last) => is_dots(last),
        None => false,
    }
}

// Returns whether a kind is that of a child.
fn is_child(kind: &Kind) -> bool
    ensures { result ≡ is_child (number kind.now) }
{
    matches!(kind, Kind::Child)
}

// Returns whether the last argument is a child.
fn ends_in_child(arguments: &[Argument]) -> bool
    ensures { result ≡ passes is_child (last_of (map number_of arguments.now)) }
{
    match arguments.last() {
        Some(last) => is_child(&kind_of(last)),
        None => false,
    }
}

// Returns whether the last argument is a child, and it is `..`.
fn has_more(node: &SymbolLang, children: &[Pattern<SymbolLang>]) -> bool
    ensures { result
        ≡ has_more (symbol_form node.now) (row_of (map (tree_of symbol_form) children.now)) }
{
    ends_in_child(node.arguments()) && ends_in_dots(children)
}

// Returns the signature that an e-node shows. If more may follow, its last argument is `..`, and left out.
fn signature_of(
    alloc: Global,
    node: &SymbolLang,
    more: bool,
    text: &str,
) -> Result<Signature, Error>
    ensures ok { IfOk result (λ s. s ≡ usage_of (symbol_form node.now) more text.now) }
    ensures err { IfErr result IsOutOfMemory }
{
    let mut kinds = kinds_of(alloc, node.arguments())?;
    if more {
        kinds.pop();
    }
    Ok(Signature {
        word: String::from_str(alloc, node.word())?,
        kinds,
        more,
        example: String::from_str(alloc, text)?,
    })
}

// Returns whether these arguments may follow those that an example shows.
fn may_follow(more: bool, others: &[Kind]) -> bool
    ensures { IsTrue result ↔ MayFollow more (map number others.now) }
{
    if more {
        others.iter().all(is_child)
    } else {
        others.is_empty()
    }
}

impl Signature {
    /// Returns the signature that an example shows, or `None` if the pattern is no e-node whose children are words.
    ///
    /// A last argument `..` stands for any number of children. Elsewhere `..` is a word as any other. The text is kept
    /// as that of the example.
    pub fn of(
        alloc: Global,
        example: &Pattern<SymbolLang>,
        text: &str,
    ) -> Result<Option<Signature>, Error>
        ensures ok { IfOk result (λ s. s ≡ shown_by text.now (tree_of symbol_form example.now)) }
        ensures err { IfErr result IsOutOfMemory }
    {
        let Pattern::ENode(node, children) = example else {
            return Ok(None);
        };
        if !are_words(children) {
            return Ok(None);
        }
        let more = has_more(node, children);
        Ok(Some(signature_of(alloc, node, more, text)?))
    }

    /// Returns the operator's word.
    pub fn word(&self) -> &str
        ensures { result.now ≡ self.now.word }
    {
        self.word.as_str()
    }

    /// Returns the text of the example.
    pub fn example(&self) -> &str
        ensures { result.now ≡ self.now.example }
    {
        self.example.as_str()
    }

    /// Returns whether the operator may have arguments of these kinds.
    pub fn takes(&self, kinds: &[Kind]) -> bool
        ensures { IsTrue result ↔ Takes self.now (map number kinds.now) }
    {
        match kinds.strip_prefix(self.kinds.as_slice()) {
            Some(others) => may_follow(self.more, others),
            None => false,
        }
    }
}

/// Proves that the operator of an example is used as declared, if the signature that the example shows is declared.
pub fn each_example_is_right()
    ensures { ExamplesAreRight }
{}
