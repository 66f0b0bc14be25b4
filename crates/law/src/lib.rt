// The law over runs and the worked sessions, as theorems about the rules.
#![tactic(auto)]

ghost use Rattle.std.specs.Prelude.{◌≡◌, ◌+◌, ◌*◌, length};
ghost use Rattle.law.specs.Law.{EveryRunIsLawful};
ghost use Rattle.law.specs.Live.{LiveIsRight};
ghost use Rattle.law.specs.Sessions.{sessions, SessionsHold};

// Every run obeys the law, and the live cells which the law counts are the live cells.
fn laws()
    ensures law { EveryRunIsLawful }
    ensures live { LiveIsRight }
{}

// The steps after which every cycle over so many places has ended, by the law of every run.
pub fn cycle_limit(places: u32) -> u64
    ensures value { result ≡ 4 * places + 548 }
    ensures law { EveryRunIsLawful }
    ensures live { LiveIsRight }
{
    laws();
    4 * places as u64 + 548
}

// Each worked session shows what it is to show.
fn worked_sessions()
    ensures { SessionsHold }
{}

// The number of worked sessions.
pub fn session_count() -> usize
    ensures value { result ≡ length sessions }
    ensures hold { SessionsHold }
{
    worked_sessions();
    31
}
