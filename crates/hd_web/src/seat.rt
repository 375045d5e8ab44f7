//! A seat: an analyst's session at a desk, which goes on from one connection to the next.
ghost use Rattle.std.specs.Prelude.{◌≡◌, MatchOption, IfOk, false, string_bytes};
ghost use Rattle.hd_lines.specs.Lines.{command_of, last_word};
ghost use Rattle.hd_lines.specs.Memory.{board_log};
ghost use Rattle.hd_analyst.specs.Answering.{IsAnswered};
ghost use Rattle.hd_analyst.specs.Work.{work_begun};
ghost use Rattle.hd_web.specs.Seats.{HasSession};

use hd_analyst::{Analyst, FixedBuffer, LONGEST_REPLY, answer, first_marks};
use hd_board::{Board, Desk};
use hd_terms::NoMemory;
use hd_words::{last_word, read_command};
use std::alloc::Global;
use std::sync::Wait;
use std::thread::Threads;

/// An analyst's session at a desk. Its replies show no names at first.
pub(crate) struct Seat<'a> {
    analyst: Analyst<'a>,
    pub ghost session: { ∥ HasSession analyst ∥₁ },
}

impl Drop for Seat<'_> {
    /// Drops the fields. A derived drop would be proved anew at each place that lets go of one.
    fn drop(self) {
        let Self { analyst } = self;
    }
}

impl<'a> Seat<'a> {
    /// A session of a desk at a board begins.
    ///
    /// # Errors
    ///
    /// Memory ran out.
    pub(crate) fn begin(alloc: Global, board: &'a Board, desk: Desk) -> Result<Seat<'a>, NoMemory>
        ensures { IfOk result (λ seat. seat.analyst ≡ work_begun board.now false desk) }
    {
        let marks = first_marks(alloc, &desk)?;
        Ok(Seat {
            analyst: Analyst::begin(board, desk, marks, false),
        })
    }

    /// Runs a line, and answers it: a short reply replaces the bytes of `out`, a long one is given back.
    pub(crate) fn answer(
        &mut self,
        rt: &(impl Wait + Threads + Sync),
        alloc: Global,
        line: &[u8],
        out: &mut FixedBuffer<LONGEST_REPLY>,
    ) -> Option<String>
        ensures { MatchOption result (IsAnswered self.old.analyst self.new.analyst (last_word line.now) (command_of line.now) out.new)
            (λ reply. IsAnswered self.old.analyst self.new.analyst (last_word line.now) (command_of line.now) (string_bytes reply)) }
    {
        answer(
            rt,
            alloc,
            &mut self.analyst,
            read_command(line),
            last_word(line),
            out,
        )
    }

    /// The desk of a session that has ended.
    pub(crate) fn leave(self) -> Desk
        ensures who { result.who ≡ self.entry.analyst.analyst.who }
        ensures seen { result.seen ≡ board_log self.entry.analyst.memory }
    {
        let Self { analyst } = self;
        analyst.leave()
    }
}
