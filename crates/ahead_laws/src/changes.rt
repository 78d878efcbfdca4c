//! What an event makes of an instruction in flight is what a step of a cycle makes of the entry
//! that it names by its number, and that step leaves all others.
ghost use Rattle.std.specs.Prelude.{◌≡◌, ℕ, false, true, nat_le};
ghost use Rattle.inorder_machine.specs.declared.line.Retire.{Retire};
ghost use Rattle.inorder_machine.specs.declared.line.Write.{Write};
ghost use Rattle.inorder_machine.specs.declared.stop.StopCause.{StopCause};
ghost use Rattle.xif_session.specs.declared.fact.Response.{Response};
ghost use Rattle.cycle_spec.specs.declared.entry.Entry.{Entry};
ghost use Rattle.cycle_spec.specs.Flight.{has_seq, with_response, with_sent, with_release, with_result, with_line, with_stop};
ghost use Rattle.ahead_spec.specs.World.{executed_with, halted_with, answered_with, sent_of, released_of, finished_with};

/// The entry of the number changes as the event says; a release is for all entries up to it.
pub fn the_named_entry_changes()
    ensures answered { (e : Entry) → (response : Response)
        → with_response e.seq response e ≡ answered_with response e }
    ensures sent { (e : Entry) → with_sent e.seq e ≡ sent_of e }
    ensures released { (seq : ℕ) → (e : Entry)
        → nat_le e.seq seq ≡ true → with_release seq e ≡ released_of e }
    ensures finished { (e : Entry) → (written : Write)
        → with_result e.seq written e ≡ finished_with written e }
    ensures executed { (e : Entry) → (line : Retire)
        → with_line e.seq line e ≡ executed_with line e }
    ensures halted { (e : Entry) → (cause : StopCause)
        → with_stop e.seq cause e ≡ halted_with cause e }
{}

/// An entry of another number stays as it is, and at a release each younger one.
pub fn other_entries_stay()
    ensures answered { (seq : ℕ) → (e : Entry) → (response : Response)
        → has_seq seq e ≡ false → with_response seq response e ≡ e }
    ensures sent { (seq : ℕ) → (e : Entry) → has_seq seq e ≡ false → with_sent seq e ≡ e }
    ensures released { (seq : ℕ) → (e : Entry)
        → nat_le e.seq seq ≡ false → with_release seq e ≡ e }
    ensures finished { (seq : ℕ) → (e : Entry) → (written : Write)
        → has_seq seq e ≡ false → with_result seq written e ≡ e }
    ensures executed { (seq : ℕ) → (e : Entry) → (line : Retire)
        → has_seq seq e ≡ false → with_line seq line e ≡ e }
    ensures halted { (seq : ℕ) → (e : Entry) → (cause : StopCause)
        → has_seq seq e ≡ false → with_stop seq cause e ≡ e }
{}
