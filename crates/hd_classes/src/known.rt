//! A resolved class: its chain, its layout, its referent field and the kind of the reference in it.
use crate::chain::Chain;
use crate::layout::Layout;
use hd_terms::EdgeKind;

/// An instance field in a layout.
#[derive(Clone, Copy, PartialEq, Eq)]
pub struct LayoutField {
    /// The ID of the class that declares it.
    pub owner: u64,
    /// The ID of the text that is its name.
    pub name: u64,
    /// Its type, as HPROF numbers the basic types: 1 or 2 for an ID, or 4 to 11.
    pub code: u8,
}

/// A class whose chain goes up to a class without a super class.
#[derive(Drop)]
pub struct ResolvedClass<'a> {
    /// The IDs of the classes of its chain: its own, its super class's, and so on.
    pub chain: Chain<'a>,
    /// The instance fields of these classes, its own before its super class's.
    pub layout: Layout<'a>,
    /// The number of the referent field in the layout, if it has one.
    pub referent: Option<u32>,
    /// The kind of the reference in that field.
    pub kind: EdgeKind,
}
