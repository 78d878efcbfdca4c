//! What the core does in a cycle, chosen from the state at its start.
ghost use Rattle.std.specs.Prelude.{◌≡◌, if◌then◌else◌, is_some, None, option_copied};
ghost use Rattle.cycle_spec.specs.Choices as spec;
ghost use Rattle.cycle_spec.specs.Flight.{youngest_released};
ghost use Rattle.spec_core.specs.Drives.{FitsPresent, AreChosen};

use crate::commit::{kill_among, release_in};
use crate::cut::{either_cut, store_cut};
use crate::oldest::{retirement_among, stop_at};
use crate::state::CoreState;
use cycle_spec::{Choices, Cut, Entry, Executed, Mode};
use flight_table::{FlightTable, Wanted};
use inorder_machine::StopCause;

/// Nothing is done.
const NO_CHOICES: Choices = Choices {
    stop: None,
    retire: None,
    execute: None,
    cut: None,
    drain: None,
    offer: None,
    present: None,
    kill: None,
    release: None,
    dispatch: false,
};

impl CoreState {
    /// What the core does in a cycle.
    pub fn choices(&self) -> Choices
        ensures { AreChosen self.now result }
    {
        let mut choices = NO_CHOICES;
        self.choose(&mut choices);
        choices
    }

    /// The same, in place of other choices.
    pub fn choose(&self, choices: &mut Choices)
        ensures { AreChosen self.now choices.new }
    {
        self.choose_in(self.mode, choices);
    }

    fn choose_in(&self, mode: Mode, choices: &mut Choices)
        ensures value { choices.new ≡ spec.choices_in self.now mode }
        ensures fits { FitsPresent self.now.params choices.new }
    {
        match mode {
            Mode::Running => self.choose_by(stop_at(&self.table), choices),
            Mode::DrainBegins => *choices = self.choices_drain_begins(stay_of(&self.table)),
            Mode::Draining => *choices = self.choices_draining(self.table.len()),
        }
    }

    fn choose_by(&self, stop: Option<StopCause>, choices: &mut Choices)
        ensures value { choices.new ≡ spec.choices_by self.now stop }
        ensures fits { FitsPresent self.now.params choices.new }
    {
        match stop {
            None => self.choose_running(choices),
            Some(cause) => *choices = self.choices_stopping(cause),
        }
    }

    /// The oldest entry stops the machine: the uses in flight are killed, and nothing else is done.
    fn choices_stopping(&self, cause: StopCause) -> Choices
        ensures value { result ≡ spec.choices_stopping self.now cause }
        ensures fits { FitsPresent self.now.params result }
    {
        Choices {
            stop: Some(cause),
            kill: self.table.first_behind(0, Wanted::Pending).copied(),
            ..NO_CHOICES
        }
    }

    /// A cut by a store comes before one by a control transfer, and then nothing executes.
    fn choose_running(&self, choices: &mut Choices)
        ensures value { choices.new ≡ spec.choices_running self.now }
        ensures fits { FitsPresent self.now.params choices.new }
    {
        let retire = retirement_among(&self.table, self.table.len());
        let hit = store_cut(&self.table, retire);
        self.put_execution_unless(hit, &mut choices.execute);
        let cut = either_cut(hit, self.control_cut(&choices.execute));
        self.choose_with(retire, cut, choices);
    }

    /// What is done beside what executes: each in its place, so that no entry is copied twice.
    fn choose_with(&self, retire: Option<&Entry>, cut: Option<Cut>, choices: &mut Choices)
        ensures value { choices.new
            ≡ spec.choices_with self.now (option_copied retire.entry) (choices.old).execute cut }
        ensures fits { FitsPresent self.now.params choices.new }
    {
        let offer = self.table.first_behind(0, Wanted::Open);
        choices.stop = None;
        put(&mut choices.retire, retire);
        choices.cut = cut;
        choices.drain = None;
        put(&mut choices.offer, offer);
        self.put_present(offer, self.table.len(), &mut choices.present);
        put(&mut choices.kill, kill_among(&self.table, cut, offer));
        put(&mut choices.release, release_in(&self.table, cut));
        choices.dispatch = self.may_dispatch(cut);
    }

    /// Nothing executes where a store cuts.
    fn put_execution_unless(&self, hit: Option<Cut>, execute: &mut Option<Executed>)
        ensures { execute.new ≡ (if is_some hit
            then None
            else spec.execution self.now self.now.flight) }
    {
        match hit {
            Some(_) => *execute = None,
            None => self.put_execution(self.table.len(), execute),
        }
    }

    /// There is room, nothing in flight stops the machine, and nothing is cut.
    fn may_dispatch(&self, cut: Option<Cut>) -> bool
        ensures { result ≡ spec.may_dispatch self.now cut }
    {
        self.table.len() < self.window && cut.is_none() && !self.table.is_any_stopping()
    }

    /// In a drain only the oldest entries, those that stay, retire, execute and are presented.
    fn choices_draining(&self, stay: u8) -> Choices
        ensures value { result ≡ spec.choices_draining self.now stay }
        ensures fits { FitsPresent self.now.params result }
    {
        Choices {
            retire: retirement_among(&self.table, stay).copied(),
            execute: self.execution(stay),
            present: self.present_in(None, stay),
            ..NO_CHOICES
        }
    }

    /// A drain begins: the entries up to the youngest released use stay, and the others are
    /// dropped.
    fn choices_drain_begins(&self, stay: u8) -> Choices
        ensures value { result ≡ spec.choices_drain_begins self.now stay }
        ensures fits { FitsPresent self.now.params result }
    {
        Choices {
            drain: Some(stay),
            kill: self.table.first_behind(stay, Wanted::Pending).copied(),
            ..self.choices_draining(stay)
        }
    }
}

/// Copies an entry to its place, if there is one.
fn put(place: &mut Option<Entry>, found: Option<&Entry>)
    ensures { place.new ≡ option_copied found.entry }
{
    match found {
        Some(entry) => *place = Some(*entry),
        None => *place = None,
    }
}

/// How many entries stay where a drain begins.
fn stay_of(table: &FlightTable) -> u8
    ensures { result
        ≡ spec.stay_with (youngest_released table.now.entries) table.now.entries }
{
    match table.youngest_released() {
        None => 0,
        Some(entry) => table.count_through(entry.seq),
    }
}
