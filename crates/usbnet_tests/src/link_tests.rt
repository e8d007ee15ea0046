//! A link of the real ends, one call after another: what each call answers, and the history that they leave.

ghost use Rattle.std.specs.Prelude.{◌≡◌, [], IfOk};
ghost use Rattle.un_journal.specs.declared.machine.FlightKey.{FlightKey};
ghost use Rattle.un_journal.specs.Flights.{times};
ghost use Rattle.un_link.specs.Link.{flights_of};

use crate::serial_tests::{Piece, filled};
use std::alloc::{AllocError, Global};
use std::test::Fail;
use un_frame::{Lane, Phase};
use un_io::MemSink;
use un_journal::{Action, Answer, Census, Got, Line, write_trace};
use un_link::{Homes, Link, ROUND};
use un_script::read;
use un_setup::agree;

/// A new link of a script.
pub(crate) fn linked(alloc: Global, text: &[u8]) -> Result<Link, AllocError>
    ensures { IfOk result (λ l. flights_of l ≡ []) }
{
    let Ok(script) = read(alloc, text) else {
        return Err(AllocError);
    };
    script.prove_ready();
    match agree(alloc, script.params()) {
        Ok(agreed) => Link::make(alloc, script, &agreed),
        Err(_) => Err(AllocError),
    }
}

/// Whether a link answers these actions, one after another, as told.
pub(crate) fn answers(link: &mut Link, rows: &[(Action, Answer)]) -> bool
    ensures { flights_of link.new ≡ flights_of link.old }
{
    let mut same = true;
    for row in rows {
        let answer = link.step(row.0);
        same = same && answer == row.1;
    }
    same
}

/// Whether the calls ran, and the link's history has this text.
pub(crate) fn traces(
    alloc: Global,
    link: &Link,
    ran: bool,
    pieces: &[Piece],
) -> Result<bool, AllocError> {
    let text = filled(alloc, pieces)?;
    let mut sink = MemSink::make(alloc, 1 << 20, 1 << 20, Vec::new(alloc))?;
    let Ok(()) = write_trace(&mut sink, link.journal()) else {
        return Ok(false);
    };
    Ok(ran && sink.held() == text.as_slice())
}

/// Whether no flight of a lane is to be had, for this reason. One that is had all the same is landed, so as many are out as before.
fn refuses_take(link: &mut Link, lane: Lane, wanted: Answer) -> bool
    ensures { (x : FlightKey) → times x (flights_of link.new) ≡ times x (flights_of link.old) }
{
    match link.take_flight(lane) {
        Got::Part(flight) => {
            link.land_flight(flight.carry());
            false
        }
        Got::Cut => false,
        Got::Not(answer) => answer == wanted,
    }
}

/// Takes an outward flight and lands it after the link was stopped: whether each call answered as it is to.
fn lands_after_a_stop(link: &mut Link) -> bool {
    let lane = Lane::Outward;
    let Got::Part(flight) = link.take_flight(lane) else {
        return false;
    };
    let refuses = refuses_take(link, lane, Answer::Flying { serial: 0 });
    let stopping = answers(
        link,
        &[
            (Action::Control { force: false }, Answer::Did),
            (Action::Unlink { lane }, Answer::Did),
            (Action::Settle, Answer::Away { count: 2 }),
            (
                Action::Offer { lane, sender: 0 },
                Answer::Down {
                    phase: Phase::Stopping,
                },
            ),
        ],
    );
    let lands = link.land_flight(flight.carry()) == Answer::Did;
    refuses && stopping && lands
}

/// The calls around a flight that is marked while it is out.
fn around_a_stop(link: &mut Link) -> bool {
    let lane = Lane::Outward;
    let begins = answers(
        link,
        &[
            (Action::Refill { lane }, Answer::Did),
            (Action::Offer { lane, sender: 0 }, Answer::Did),
        ],
    );
    let lands = lands_after_a_stop(link);
    let goes_on = answers(
        link,
        &[
            (Action::TxDone { lane }, Answer::Did),
            (Action::Settle, Answer::Did),
            (Action::Control { force: false }, Answer::Did),
            (Action::Move { lane }, Answer::Nothing),
            (Action::Refill { lane }, Answer::Did),
            (Action::Offer { lane, sender: 0 }, Answer::Did),
            (Action::Move { lane }, Answer::Did),
            (Action::TxDone { lane }, Answer::Did),
            (Action::RxDone { lane }, Answer::Did),
            (Action::Deliver { lane }, Answer::Did),
        ],
    );
    begins && lands && goes_on
}

/// Whether a flight that is marked while it is out is cut where it lands, and the link goes on after the stop.
fn a_marked_flight(alloc: Global) -> Result<bool, AllocError> {
    let text = filled(
        alloc,
        &[
            (b"class ecm\nrequests 1 1 1 1\nout 0 ", 60),
            (b"\nout 0 ", 60),
            (b"\nat out 1 down\nat out 1 up", 0),
        ],
    )?;
    let mut link = linked(alloc, &text)?;
    let ran = around_a_stop(&mut link);
    traces(
        alloc,
        &link,
        ran,
        &[
            (b"trace\nposted out\ntook out 0\nmade out 0 0 1 ", 60),
            (
                b"\nflying out 0\ndid 0 0\nmarked out 0 0\ncut out 0 0\ntxhome out 0\nsettled 1 1 1 1\ndid 1 0\nposted out\ntook out 0\nmade out 1 1 2 ",
                60,
            ),
            (
                b"\nflying out 1\nlanded out 1\ntxhome out 1\nopened out 1\ngave out 1 ",
                60,
            ),
            (b"\nend\n", 0),
        ],
    )
}

#[test]
fn a_marked_flight_is_cut_where_it_lands(rt: HostRuntime) -> Result<(), Fail> {
    assert!(rt; a_marked_flight(rt.alloc())?);
    Ok(())
}

/// The actions up to an unplugging, and what they answer.
fn up_to_the_unplugging(link: &mut Link) -> bool {
    let lane = Lane::Outward;
    answers(
        link,
        &[
            (Action::Refill { lane }, Answer::Did),
            (Action::Offer { lane, sender: 0 }, Answer::Did),
            (Action::Offer { lane, sender: 0 }, Answer::Did),
            (Action::Move { lane }, Answer::Did),
            (Action::Offer { lane, sender: 0 }, Answer::Did),
            (
                Action::Offer {
                    lane: Lane::Inward,
                    sender: 0,
                },
                Answer::Did,
            ),
            (Action::Control { force: false }, Answer::Did),
        ],
    )
}

/// The actions after it.
fn after_the_unplugging(link: &mut Link) -> bool {
    let lane = Lane::Outward;
    answers(
        link,
        &[
            (Action::TxDone { lane }, Answer::Did),
            (Action::Move { lane }, Answer::Did),
            (Action::TxDone { lane }, Answer::Did),
            (Action::RxDone { lane }, Answer::Did),
            (Action::Deliver { lane }, Answer::Did),
            (Action::Settle, Answer::Did),
            (Action::Control { force: true }, Answer::NoControl),
        ],
    )
}

/// The calls around an unplugging.
fn around_an_unplugging(link: &mut Link) -> bool {
    let before = up_to_the_unplugging(link);
    let after = after_the_unplugging(link);
    before && after && link.phase() == Phase::Away
}

/// Whether an unplugging drops what is built, cuts what is queued, and lets what has landed be given.
fn an_unplugging(alloc: Global) -> Result<bool, AllocError> {
    let text = filled(
        alloc,
        &[
            (b"class ncm16\nblock 2048\nrequests 3 1 1 1\nout 0 ", 1514),
            (b"\nout 0 ", 1514),
            (b"\nout 0 ", 1514),
            (b"\nin 0 ", 60),
            (b"\nat out 3 unplug", 0),
        ],
    )?;
    let mut link = linked(alloc, &text)?;
    let ran = around_an_unplugging(&mut link);
    traces(
        alloc,
        &link,
        ran,
        &[
            (
                b"trace\nposted out\ntook out 0\ntook out 0\nmade out 0 0 1 4e434d480c0000000806f8050000",
                1514,
            ),
            (
                b"4e434d30100000000e00ea0500000000\nflying out 0\nlanded out 0\ntook out 0\nmade out 1 1 2 4e434d480c0001000806f8050000",
                1514,
            ),
            (
                b"4e434d30100000000e00ea0500000000\ntook in 0\ndid 0 0\ndropped out 2 3 0\ndropped in 0 1 0\nmarked out 1 0\ntxhome out 0\ncut out 1 0\ntxhome out 1\nopened out 0\ngave out 0 ",
                1514,
            ),
            (b"\nsettled 3 1 1 1\nend\n", 0),
        ],
    )
}

#[test]
fn an_unplugging_drops_what_is_built(rt: HostRuntime) -> Result<(), Fail> {
    assert!(rt; an_unplugging(rt.alloc())?);
    Ok(())
}

/// Whether a suspend isn't done before it is due, nor while a transfer is queued.
fn a_suspend(alloc: Global) -> Result<bool, AllocError> {
    let text = filled(
        alloc,
        &[
            (b"class ecm\nrequests 1 1 1 1\nout 0 ", 60),
            (b"\nat out 1 suspend", 0),
        ],
    )?;
    let mut link = linked(alloc, &text)?;
    let control = Action::Control { force: false };
    let offer = Action::Offer {
        lane: Lane::Outward,
        sender: 0,
    };
    Ok(answers(
        &mut link,
        &[
            (control, Answer::NotDue { have: 0, want: 1 }),
            (offer, Answer::Did),
            (control, Answer::InFlight { count: 1 }),
        ],
    ))
}

#[test]
fn a_suspend_waits(rt: HostRuntime) -> Result<(), Fail> {
    assert!(rt; a_suspend(rt.alloc())?);
    Ok(())
}

/// Does these actions, while the history has fewer lines than this.
fn go_on(link: &mut Link, actions: &[Action], lines: u64)
    ensures { flights_of link.new ≡ flights_of link.old }
{
    for action in actions {
        if link.journal().len() < lines {
            link.step(*action);
        }
    }
}

/// Goes on by rounds without their control until the history has so many lines; false where the rounds are quiet before. A round that isn't quiet writes at least one line.
fn reaches(link: &mut Link, lines: u64) -> bool
    ensures { flights_of link.new ≡ flights_of link.old }
{
    for round in 0..lines {
        let _ = round;
        go_on(link, &ROUND[1..], lines);
    }
    link.journal().len() >= lines
}

/// How many datagrams a lane has accepted.
fn accepted(link: &Link, lane: Lane) -> u64 {
    let journal = link.journal();
    let mut count: u64 = 0;
    for index in 0..journal.len() {
        if is_taken(journal.line(index), lane) {
            count = count.saturating_add(1);
        }
    }
    count
}

/// Whether a line accepts a datagram of the lane.
fn is_taken(line: Line, lane: Lane) -> bool {
    match line {
        Line::Took { lane: taken, .. } => taken == lane,
        _ => false,
    }
}

/// How many places a datagram has.
fn places(census: Census) -> u64 {
    let counts = [
        census.builder,
        census.remainder,
        census.deferred,
        census.queued,
        census.flying,
        census.arrived,
        census.current,
        census.given,
        census.lost,
    ];
    let mut places: u64 = 0;
    for count in counts {
        places = places.saturating_add(u64::from(count));
    }
    places
}

/// Whether each accepted datagram of a lane is in exactly one place.
fn all_add_up(link: &Link, lane: Lane) -> bool {
    for number in 0..accepted(link, lane) {
        if places(link.census(lane, number)) != 1 {
            return false;
        }
    }
    true
}

/// Whether each accepted datagram of both lanes is in exactly one place.
fn adds_up(link: &Link) -> bool {
    all_add_up(link, Lane::Outward) && all_add_up(link, Lane::Inward)
}

/// Whether a link is finished in this phase, and where that isn't `Up`, with every request at home.
fn has_ended(link: &Link, phase: Phase) -> bool {
    let homes = Homes {
        tx_out: 2,
        rx_out: 2,
        tx_in: 2,
        rx_in: 2,
    };
    link.finished() && link.phase() == phase && (phase == Phase::Up || link.homes() == homes)
}

/// The script of a class, whose lines these are, with five full frames in each lane, one control that is due at once, and a fault plan.
fn with_control(
    alloc: Global,
    class: &[u8],
    control: &[u8],
    plan: &[u8],
) -> Result<Vec<u8>, AllocError> {
    let mut text = Vec::from_slice(alloc, class)?;
    text.extend_from_slice(b"\nrequests 2 2 2 2")?;
    for _ in 0..5 {
        let lines = filled(alloc, &[(b"\nout 0 ", 1514), (b"\nin 0 ", 1514)])?;
        text.extend_from_slice(&lines)?;
    }
    text.extend_from_slice(b"\nat out 0 ")?;
    text.extend_from_slice(control)?;
    text.extend_from_slice(plan)?;
    Ok(text)
}

/// Does the control once the history has so many lines, and then drains the link: whether all is as it is to be. Nothing where the rounds don't reach so many lines.
fn cut(link: &mut Link, phase: Phase, lines: u64) -> Option<bool>
    requires { flights_of link.old ≡ [] }
{
    if !reaches(link, lines) {
        return None;
    }
    let before = adds_up(link);
    let did = link.step(Action::Control { force: false }) == Answer::Did;
    let then = adds_up(link);
    link.drain();
    let after = adds_up(link);
    Some(before && did && then && after && has_ended(link, phase))
}

/// The same on a new link of a script.
fn cut_at(
    alloc: Global,
    script: &[u8],
    phase: Phase,
    lines: u64,
) -> Result<Option<bool>, AllocError> {
    let mut link = linked(alloc, script)?;
    Ok(cut(&mut link, phase, lines))
}

/// Whether all is as it is to be for a control after each number of lines. Without it the history has more than eighty: each of the ten frames needs seven, and a posted request.
fn cuts_with(
    alloc: Global,
    class: &[u8],
    control: &[u8],
    plan: &[u8],
    phase: Phase,
) -> Result<bool, AllocError> {
    let script = with_control(alloc, class, control, plan)?;
    for lines in 0..1000 {
        match cut_at(alloc, &script, phase, lines)? {
            Some(true) => {}
            Some(false) => return Ok(false),
            None => return Ok(lines > 80),
        }
    }
    Ok(false)
}

/// The lines of a class whose blocks hold one full frame each.
pub(crate) const BLOCKS: &[u8] = b"class ncm16\nblock 2048";

/// The same for each control that cuts, with these lines of a class and this fault plan.
pub(crate) fn cuts_at_every_moment(
    alloc: Global,
    class: &[u8],
    plan: &[u8],
) -> Result<bool, AllocError> {
    let rows: [(&[u8], Phase); 4] = [
        (b"unplug", Phase::Away),
        (b"down", Phase::Down),
        (b"unlink out", Phase::Up),
        (b"unlink in", Phase::Up),
    ];
    for (control, phase) in rows {
        if !cuts_with(alloc, class, control, plan, phase)? {
            return Ok(false);
        }
    }
    Ok(true)
}

#[test]
fn a_cut_at_every_moment_loses_no_count(rt: HostRuntime) -> Result<(), Fail> {
    assert!(rt; cuts_at_every_moment(rt.alloc(), BLOCKS, b"")?);
    Ok(())
}
