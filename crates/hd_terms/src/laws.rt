//! Laws over the definitions. Each is the contract of a function with an empty body.
ghost use Rattle.std.specs.Prelude.{ℕ, List, [], ◌∷◌, ◌++◌, None, Some, true, ◌≡◌, ◌≢◌, Contains};
ghost use Rattle.hd_terms.specs.declared.IdSize.{IdSize};
ghost use Rattle.hd_terms.specs.declared.Event.{Event};
ghost use Rattle.hd_terms.specs.declared.Mode.{Mode};
ghost use Rattle.hd_terms.specs.declared.errors.LogFault.{LogFault};
ghost use Rattle.hd_terms.specs.declared.errors.ReadFault.{ReadFault};
ghost use Rattle.hd_terms.specs.declared.Strength.{Strength};
ghost use Rattle.hd_terms.specs.declared.Strength.TheVariants as strengths;
ghost use Rattle.hd_terms.specs.Records.{Record, AreRecords};
ghost use Rattle.hd_terms.specs.SubRecords.{SubRecord, ClassItem, AreSubRecords};
ghost use Rattle.hd_terms.specs.Classes.{IsClassChain, NeverEnds, chain_of, never_ends};
ghost use Rattle.hd_terms.specs.Dump.{Dump};
ghost use Rattle.hd_terms.specs.Objects.{IsDumpOf};
ghost use Rattle.hd_terms.specs.ReadFaults.{IsReadFault};
ghost use Rattle.hd_terms.specs.Log.{IsLawful, begins_with, log_fault};
ghost use Rattle.hd_terms.specs.Appending.{append_refusal};
ghost use Rattle.hd_terms.specs.Desks.{IsForeign, IsApart};
ghost use Rattle.hd_terms.specs.Schedule.{Board, Desks, Reaches, IsOneHistory, Closes, all_desks, fork};
ghost use Rattle.hd_terms.specs.Paths.{Edge, RootEntry, Standing};
ghost use Rattle.hd_terms.specs.Strengths.{HasStrength};
ghost use Rattle.hd_terms.specs.Chains.{IsChain};
ghost use Rattle.hd_terms.specs.Settled.{Reached, Settled, IsStoredChain, reached_at};

/// Whatever is settled for what stands has, of each object, the strength that the definition over root paths gives;
/// and the supports of each reachable object, followed back, are a chain of that strength.
pub fn settled_supports_give_strengths()
    ensures strengths { (g : Standing) (ks : List Reached) → Settled g ks → (o : ℕ) → HasStrength g o (reached_at ks o).strength }
    ensures chains { (g : Standing) (ks : List Reached) → Settled g ks → (o : ℕ) → (reached_at ks o).strength ≢ strengths.Unreachable
        → (r : RootEntry) × (es : List Edge) × IsChain g r es o (reached_at ks o).strength × IsStoredChain g ks r es o }
{}

/// A file reads as one list of records, a body as one list of sub-records. So a file has one dump or one fault at most,
/// and never both.
pub fn one_reading()
    ensures records { (size : IdSize) (bytes : List ℕ) (rs ss : List Record) → AreRecords size bytes rs → AreRecords size bytes ss → rs ≡ ss }
    ensures sub_records { (size : IdSize) (body : List ℕ) (ss ts : List SubRecord) → AreSubRecords size body ss → AreSubRecords size body ts → ss ≡ ts }
    ensures dumps { (mode : Mode) (bytes : List ℕ) (a b : Dump) → IsDumpOf mode bytes a → IsDumpOf mode bytes b → a ≡ b }
    ensures no_fault { (mode : Mode) (bytes : List ℕ) (dump : Dump) (f : ReadFault) → IsDumpOf mode bytes dump → IsReadFault bytes f → ⊥ }
    ensures faults { (bytes : List ℕ) (f g : ReadFault) → IsReadFault bytes f → IsReadFault bytes g → f ≡ g }
{}

/// A class has one chain at most, and `chain_of` finds it; a chain never ends exactly where `never_ends` says so.
pub fn class_chains()
    ensures found { (classes : List ClassItem) (id : ℕ) (chain : List ClassItem) → IsClassChain classes id chain → chain_of classes id ≡ Some chain }
    ensures is_chain { (classes : List ClassItem) (id : ℕ) (chain : List ClassItem) → chain_of classes id ≡ Some chain → IsClassChain classes id chain }
    ensures cycle { (classes : List ClassItem) (id : ℕ) → NeverEnds classes id → never_ends classes id ≡ true }
    ensures never_ends { (classes : List ClassItem) (id : ℕ) → never_ends classes id ≡ true → NeverEnds classes id }
{}

/// A lawful log takes exactly the events that leave it lawful, and an append that isn't refused is one of these.
pub fn lawful_logs()
    ensures none { IsLawful [] }
    ensures takes { (log : List Event) (event : Event) → IsLawful log → log_fault log event ≡ None → IsLawful (log ++ event ∷ []) }
    ensures refuses { (log : List Event) (event : Event) (f : LogFault) → log_fault log event ≡ Some f → IsLawful (log ++ event ∷ []) → ⊥ }
    ensures appends { (roots : ℕ) (log : List Event) (event : Event) → append_refusal roots log event ≡ None → log_fault log event ≡ None }
{}

/// An object has one strength.
pub fn one_strength()
    ensures { (g : Standing) (o : ℕ) (a b : Strength) → HasStrength g o a → HasStrength g o b → a ≡ b }
{}

/// Whatever the schedule, the desks of a board hold beginnings of one history. So the front of a desk's state is a lawful log,
/// from which a private board can begin.
pub fn desks_hold_one_history()
    ensures history { (board : Board) (s : Desks) → Reaches board s → IsOneHistory board s }
    ensures forks { (board : Board) (s : Desks) → Reaches board s → IsLawful board.base → (a : ℕ) → Contains board.numbers a → IsLawful (fork board s a).base }
{}

/// So none of a board's desks ever finds a log that is foreign to it, none stands apart from what another has seen at any
/// time, and the board can be closed with all of them.
pub fn no_desk_is_foreign()
    ensures found { (board : Board) (s : Desks) → Reaches board s → (a : ℕ) → Contains board.numbers a → IsForeign board.numbers a (s.desk a).seen s.log → ⊥ }
    ensures told { (board : Board) (s : Desks) → Reaches board s → (a : ℕ) (told : List Event) → Contains board.numbers a → begins_with s.log told → IsApart a (s.desk a).seen told → ⊥ }
    ensures learned { (board : Board) (s : Desks) → Reaches board s → (a b : ℕ) → Contains board.numbers a → Contains board.numbers b → IsApart a (s.desk a).seen (s.desk b).seen → ⊥ }
    ensures closed { (board : Board) (s : Desks) → Reaches board s → Closes board s.log (all_desks board s) }
{}
