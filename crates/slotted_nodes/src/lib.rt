//! Nodes: what a node of a language is, by its places and its children.
//!
//! A node has an operator, payloads, slots of its own, binders and children. A language is a type of nodes, mostly an
//! enum with one variant for each operator, whose fields are
//!
//! - a [`slotted_slots::Slot`], one place with a name;
//! - a [`slotted_slots::AppliedId`], a child;
//! - a [`Bind`] of a field, which binds a slot in that field;
//! - a payload, which has neither places nor children: an integer of Rust's types, a `bool`, a `char`, or a [`Symbol`].
//!
//! # Writing a language
//!
//! A language is written out by hand against [`LanguageChildren`] and `Language` of `slotted_languages`, which
//! numbers the operators. `Small` in `slotted_small` is one. There are four steps.
//!
//! 1. The enum, with `#[derive(Drop, Debug, Clone, PartialEq, Eq, PartialOrd, Ord, Hash)]`. The variants in their order
//!    are the first key of `Ord`, and `operator` numbers them from 0.
//! 2. Its `form` in `specs/`, by cases: `variant k` of the form of the fields. One field gives its own form, two give
//!    `join_form` of theirs, none gives `plain []`. Beside it what a node is written as (`shown`), and which lists of
//!    elements are read as which forms (`read`).
//! 3. The calls. A variant with one field passes each call on to the field. A variant with two fields passes it on to
//!    the call of that name in [`pair`], which reads two fields as one list of places and of children.
//! 4. The four laws, by cases: there are as many names as the tree has places (`fits`); the children are few (`few`);
//!    two nodes are equal exactly if their forms are (`same`); what is read has the slots and the children of its
//!    elements, and makes up none (`faithful`). `specs/Equal.antt` has the first three for the fields, and
//!    `specs/PairEqual.antt` for two fields and for a variant; `specs/ReadFrom.antt` has the last for all of these.
//!
//! [`ReadBack`] says that the nodes of a language are read back from what they are written as, by three more laws.
//! `specs/ReadsBack.antt` has them for the fields.
//!
//! The rest follows from the form: a write changes its place or its child alone, a child's places stand together,
//! scopes nest or lie apart and hold whole children, and none of that depends on names.
//!
//! ```text
//! // A language of let-bindings: (let $x t u) is written as a text, the binder with its body, and the value.
//! pub enum Lets {
//!     Let(Bind<AppliedId>, AppliedId),
//!     Var(Slot),
//!     Literal(u32),
//! }
//!
//! fn slot_count(&self) -> usize {
//!     match self {
//!         Lets::Let(body, value) => pair::slot_count(body, value),
//!         Lets::Var(x) => x.slot_count(),
//!         Lets::Literal(n) => n.slot_count(),
//!     }
//! }
//! ```
#![tactic(auto)]

pub mod children;
pub mod pair;
pub mod payload;
pub mod read_back;

pub use children::{Bind, LanguageChildren};
pub use payload::Symbol;
pub use read_back::ReadBack;
