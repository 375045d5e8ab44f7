//! Two laws and an example, each the contract of a function that does nothing.
ghost use Rattle.std.specs.Prelude.{ℕ, Bool, false, List, [], ◌∷◌, ◌++◌, ◌≡◌, codes};
ghost use Rattle.std.specs.List.{AllByRecursion};
ghost use Rattle.hd_terms.specs.declared.Mode.{Mode};
ghost use Rattle.hd_terms.specs.Dump.{Dump};
ghost use Rattle.hd_terms.specs.Examples as examples;
ghost use Rattle.hd_lines.specs.Lines.{command_of};
ghost use Rattle.hd_terms.specs.Objects.{IsDumpOf, IsNamelessDumpOf};
ghost use Rattle.hd_lines.specs.Sessions.{Turn};
ghost use Rattle.hd_lines.specs.Stat.{IsStat};
ghost use Rattle.hd_laws.specs.Plain.{AreAlike, AsksNoChain, IsServedPlainly};

use hd_lines::reply_examples;

/// The bytes of a dump and the mode have one text of `stat`.
pub fn one_stat()
    ensures { (mode : Mode) (bytes text other : List ℕ) (a b : Dump) → IsNamelessDumpOf mode bytes a → IsNamelessDumpOf mode bytes b → IsStat a text → IsStat b other → text ≡ other }
{}

/// Where an analyst alone is served a whole input over the bytes of a dump, no private part begins, and no reply says that
/// memory ran out or that the log is foreign, the replies are a function of the bytes, the mode, the input and whether names are on
/// from the beginning, but for those to `chain`. Where no chain is asked for, all that is written is.
pub fn one_run()
    ensures alike { (mode : Mode) (names : Bool) (bytes input written other : List ℕ) (a b : Dump) (ts us : List Turn) → IsDumpOf mode bytes a → IsDumpOf mode bytes b
        → IsServedPlainly a names input written ts → IsServedPlainly b names input other us → AreAlike ts us }
    ensures same { (mode : Mode) (names : Bool) (bytes input written other : List ℕ) (a b : Dump) (ts us : List Turn) → IsDumpOf mode bytes a → IsDumpOf mode bytes b
        → IsServedPlainly a names input written ts → IsServedPlainly b names input other us → AllByRecursion (λ (t : Turn). AsksNoChain (command_of t.line)) ts → written ≡ other }
{}

/// There are such sessions: over two arrays, one that asks for a strength and ends.
pub fn plain_session()
    ensures { (turns : List Turn) × IsServedPlainly examples.two_arrays false (codes "strength 0x2" ++ 10 ∷ codes "quit" ++ 10 ∷ [])
        (codes "ok 1" ++ 10 ∷ codes "STRONG" ++ 10 ∷ codes "ok 0" ++ 10 ∷ []) turns }
{
    reply_examples();
}
