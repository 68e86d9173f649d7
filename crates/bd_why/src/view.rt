//! A design with its texts, and which item of them a value comes from.

use crate::listing::{ListedItem, Listing};
use crate::source::Source;
use crate::words::entry_name;
use bd_model::{Design, Machine};
use bd_slice::{Column, Cycle, Subject};
use bd_text::outline::parts_of;

/// A design, and the items of its texts.
#[derive(Drop)]
pub struct ListedDesign<'a, 'b> {
    pub design: &'a Design,
    pub pipe: Listing<'b>,
    pub spec: Listing<'b>,
    pub inv: Option<Listing<'b>>,
}

/// Which text an item stands in.
#[derive(Clone, Copy, PartialEq, Eq, Hash)]
pub enum ItemText {
    Pipe,
    Spec,
    Inv,
}

/// An item of the texts: which text, and where it begins.
#[derive(Clone, Copy, PartialEq, Eq, Hash)]
pub struct ItemPlace {
    pub text: ItemText,
    pub offset: usize,
}

/// The text of the items of a cycle.
pub fn text_of(cycle: Cycle) -> ItemText {
    match cycle {
        Cycle::Step(_) => ItemText::Spec,
        Cycle::Invariant => ItemText::Inv,
        _ => ItemText::Pipe,
    }
}

impl<'a, 'b> ListedDesign<'a, 'b> {
    /// The machine whose states a column has.
    pub fn machine(&self, column: Column) -> &'a Machine {
        match column {
            Column::Steps(_) => &self.design.spec,
            _ => &self.design.pipe,
        }
    }

    /// The items of a text.
    fn listing(&self, text: ItemText) -> Option<&Listing<'b>> {
        match text {
            ItemText::Pipe => Some(&self.pipe),
            ItemText::Spec => Some(&self.spec),
            ItemText::Inv => self.inv.as_ref(),
        }
    }

    /// The text in which the item of a value stands.
    pub fn source(&self, subject: Subject) -> Option<Source<'b>> {
        let listing = self.listing(text_of(subject.cycle()?))?;
        Some(listing.source)
    }

    /// The item that a value comes from: none where it is the case's, or is taken over.
    pub fn item(&self, subject: Subject) -> Option<ListedItem<'_>> {
        match subject {
            Subject::Input(Cycle::Case, _) => None,
            _ => self.named(subject),
        }
    }

    /// Whether a word of a memory comes from an item that only names another memory.
    pub fn is_copy(&self, subject: Subject) -> bool {
        match (subject, self.item(subject)) {
            (Subject::Cell(_, _, _) | Subject::LetCell(_, _, _), Some(item)) => {
                parts_of(item.expression).is_none()
            }
            _ => false,
        }
    }

    /// What tells the item of a value from others.
    pub fn spot(&self, subject: Subject) -> Option<ItemPlace> {
        let item = self.item(subject)?;
        Some(ItemPlace {
            text: text_of(subject.cycle()?),
            offset: item.offset,
        })
    }

    /// The item that names a value.
    fn named(&self, subject: Subject) -> Option<ListedItem<'_>> {
        let listing = self.listing(text_of(subject.cycle()?))?;
        match subject {
            Subject::Latch(column, entry) | Subject::Cell(column, entry, _) => {
                listing.next_of(entry_name(self.machine(column), entry))
            }
            Subject::Input(_, number) => listing.input(number),
            Subject::Let(_, number) | Subject::LetCell(_, number, _) => listing.local(number),
            Subject::Invariant => listing.last(),
        }
    }

    /// The name of an input, a let or the invariant.
    pub fn item_name(&self, subject: Subject) -> &[u8] {
        match self.named(subject) {
            Some(item) => item.name,
            None => b"?",
        }
    }
}
