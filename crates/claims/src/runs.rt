// The transmit-list session: the claim about every run of it, the start-up with a gateway that helps, and what is told of a PGN then.
ghost use Rattle.std.specs.Prelude.{Bool, true, false, not, ◌&&◌, ◌||◌, ◌≡◌, List, ℕ};
ghost use Rattle.session.specs.Sync.{Sync, kind, begun_with};
ghost use Rattle.session.specs.LentPlayed.{InLentMemory};
ghost use Rattle.session.specs.Played.{Played, Demand3, Taken, held_by};
ghost use Rattle.session.specs.StartUp.{StartUp, StartedUp};
ghost use Rattle.session.proofs.Tilt.{wanted, nothing, newer, older};
ghost use Rattle.transmits.specs.Transmits.{pending_in, transmits_of, is_transmitted, is_dropped};
ghost use Rattle.tx_list.specs.Live.{Gateway, start_up_run};
ghost use Rattle.tx_list.specs.Session.{Record, Known};
ghost use Rattle.tx_list.specs.Views.{has};

/// After any calls, refused ones included, whatever clock and gateway do: the record and the commands of a session that was just begun
/// or restarted.
#[tactic(auto, using(crate::specs::Session::demand_3))]
pub fn demand_3()
    ensures { Demand3 }
{}

/// The openings that this speaks of: at most 64 wanted, record lists of at most 192.
#[tactic(auto, using(crate::specs::Session::openings))]
pub fn openings()
    ensures { Taken }
{}

/// With a gateway that helps, the start-up ends done, with every wanted PGN that was not refused before on the known list, so that
/// `lacks` says nothing of it, and everything newly enabled saved.
#[tactic(auto, using(crate::specs::Session::start_up))]
pub fn start_up()
    ensures { StartUp }
{}

/// Both from a begin in lent memory, of the session that numbers and arrays hold.
#[tactic(auto, using(crate::specs::Session::in_lent_memory))]
pub fn in_lent_memory()
    ensures { InLentMemory }
{}

/// The seat's reminder, PGN 126983, with a gateway of firmware 2.690, which is read in Format 2.
#[tactic(auto, using(crate::specs::Session::tilt_2690))]
pub fn tilt_2690()
    ensures { (last : Sync) (bytes : List ℕ) → Played (begun_with wanted nothing).sync (start_up_run kind wanted nothing newer) last bytes
        → StartedUp wanted nothing newer last bytes }
{}

/// The same with one whose firmware is not known, which is read in Format 1.
#[tactic(auto, using(crate::specs::Session::tilt_older))]
pub fn tilt_older()
    ensures { (last : Sync) (bytes : List ℕ) → Played (begun_with wanted nothing).sync (start_up_run kind wanted nothing older) last bytes
        → StartedUp wanted nothing older last bytes }
{}

/// After a start-up that ended well, every wanted PGN that was not refused before is told as one that the gateway will transmit, where
/// what the session enabled itself is saved.
pub fn transmitted()
    ensures { (w : List ℕ) (old : Record ℕ) (g : Gateway) (last : Sync) (bytes : List ℕ) (done : Bool) (fresh owed : List ℕ) (p : ℕ)
        → StartedUp w old g last bytes
        → (has p fresh ≡ true → has p (held_by last).rec.saved ≡ true)
        → has p w ≡ true
        → has p old.refused ≡ false
        → is_transmitted (transmits_of done (held_by last).rec fresh owed (held_by last).known p) ≡ true }
{}

/// Whatever the session: a yes is told only of a PGN on a list that this session read, and saved if the session enabled it itself.
#[tactic(auto, using(crate::specs::Session::yes_rests))]
pub fn yes_rests()
    ensures { (done : Bool) (r : Record ℕ) (fresh owed : List ℕ) (kn : Known) (p : ℕ)
        → is_transmitted (transmits_of done r fresh owed kn p) ≡ true
        → (kn.is_read ≡ true) × (has p kn.pgns ≡ true) × (has p fresh ≡ true → has p r.saved ≡ true) }
{}

/// A no is told only of a PGN that the list does not have, and that was refused, or that a whole list lacks and of which no command is
/// pending.
#[tactic(auto, using(crate::specs::Session::no_rests))]
pub fn no_rests()
    ensures { (done : Bool) (r : Record ℕ) (fresh owed : List ℕ) (kn : Known) (p : ℕ)
        → is_dropped (transmits_of done r fresh owed kn p) ≡ true
        → ((kn.is_read && has p kn.pgns) ≡ false)
        × ((has p r.refused || (kn.is_read && (kn.is_whole && not (has p (pending_in done owed))))) ≡ true) }
{}
