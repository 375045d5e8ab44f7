//! How events are written as lines.
ghost use Rattle.hd_words.specs.EventLines.{event_line};

use crate::decimal::put_decimal;
use crate::event_words::put_what;
use crate::lines::LineFormat;
use hd_terms::Event;
use std::alloc::AllocError;

/// An event with its number, and whether it is live.
#[derive(Clone, Copy)]
pub struct EventRow {
    pub number: u32,
    pub event: Event,
    pub live: bool,
}

/// Events as lines: `E WHO EDIT live`, `E WHO EDIT undone` or `E WHO undo K`.
#[derive(Drop)]
pub struct EventLines;

impl LineFormat for EventLines {
    type Row = EventRow;

    ghost can_write = { λ _ _. Unit {0} };

    ghost line = { λ _ row. event_line row };

    fn put(&mut self, text: &mut String, row: &EventRow) -> Result<(), AllocError> {
        put_decimal(text, u64::from(row.number))?;
        text.push_str(" ")?;
        put_decimal(text, u64::from(row.event.who))?;
        text.push_str(" ")?;
        put_what(text, row.event.what, row.live)
    }
}
