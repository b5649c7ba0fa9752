ghost use Rattle.std.specs.Prelude.{◌≡◌, ◌⊎◌, ◌^◌, ◌-◌, ℕ, [], Err, List, None, IfErr, IfOk, OnOk, OnErr, IsErrOf, option_map};
ghost use Rattle.clone_outside.specs.Causes.{HasCause, Rose};
ghost use Rattle.clone_outside.specs.DiskCalls.{Reads};
ghost use Rattle.clone_engine.specs.Disks.{Visits};
ghost use Rattle.clone_model.specs.Config.{IsConfig};
ghost use Rattle.clone_model.specs.declared.config.Config.{Config};
ghost use Rattle.clone_dump.specs.Shown.{SaysRecovered, SaysRows};
ghost use Rattle.clone_script.specs.Given.{IsTerms};
ghost use Rattle.clone_script.specs.declared.terms.Terms.{Terms};
ghost use Rattle.clone_events.specs.World.{IsWithin};
ghost use Rattle.clone_core.specs.Acting.{stop_of};
ghost use Rattle.clone_core.specs.System.{donor_of};
ghost use Rattle.clone_core.specs.Lines.{IsNew};
ghost use Rattle.clone_words.specs.Commands.{IsRunInRange, texts};
ghost use Rattle.clone_top.specs.Carrying.{Answered, AnsweredAll, AnsweredSome, Finished, Stopped, StoppedAtLine};
ghost use Rattle.clone_top.specs.Causes.{Looks, WereNotEmpty};
ghost use Rattle.clone_top.specs.Ended.{EndsLines};
ghost use Rattle.clone_top.specs.Ends.{AreEmpty, End, IsRead, disks, end_of, ends, means, streams};
ghost use Rattle.clone_top.specs.Looking.{IsNewDonor, IsUnready};
ghost use Rattle.clone_top.specs.Main.{DiskOutcome, Outcome, OutcomeOf, StepsOutcome};
ghost use Rattle.clone_top.specs.Status.{number_of};
ghost use Rattle.clone_top.specs.Stops.{StopsAtFailure};

use crate::load::run_or_refuse;
use crate::reading::read_source;
use crate::recovering::{say_recovered, say_rows};
use crate::saying::{say_no_command, say_unread, say_unready};
use crate::status::Status;
use clone_core::{World, run_laws};
use clone_donor::Donor;
use clone_engine::{OpenCause, OpenRefusal, is_empty};
use clone_events::run_laws as plain_laws;
use clone_model::{Config, Drops, binlog_text};
use clone_outside::{Crew, Gate, Link, Net, PageDisk, Refusal, Sink, Source, write_all};
use clone_run::{RunDisk, RunLink, RunNet};
use clone_script::{Line, Script};
use clone_session::Stop;
use clone_words::{Command, parse};
use std::alloc::Global;
use std::sync::{Arc, Wait};
use std::thread::Threads;
use std::time::Clock;

/// How a run ended, the disks and the net that it was given, and what the donor of a script told of
/// drops and of a stop.
#[derive(Drop)]
pub struct Ended<H> {
    /// The status.
    pub status: u8,
    /// The donor's disk.
    pub donor: RunDisk,
    /// The recipient's disk.
    pub recipient: RunDisk,
    /// The net.
    pub net: RunNet<H>,
    /// The drops of tables: none where no script was carried out.
    pub drops: Drops,
    /// The stop of the script's clone, if it came to that.
    pub stop: Option<Stop>,
}

/// Runs the program by its words. `steps` reads a script from the source, carries out its lines
/// over a donor on the one disk and a clone on the other, writes their answers to `out` and at the
/// end the commits to `binlog`. `run` clones a donor under load, over connections that the net
/// makes, each job in a thread that the crew starts, and writes a summary and the commits.
/// `recover` and `dump` recover the recipient's disk.
pub fn clone_main<
    S: Source,
    K: Sink,
    B: Sink,
    T: Threads,
    G: Gate + Send + Sync + Drop + 'static,
    H: Wait + Clock + Copy + Send + Sync + Drop + 'static,
>(
    rt: H,
    alloc: Global,
    words: &[String],
    source: &mut S,
    out: &mut K,
    binlog: &mut B,
    donor: RunDisk,
    recipient: RunDisk,
    net: RunNet<H>,
    crew: &mut Crew<T>,
    gate: Arc<G>,
) -> Ended<H>
    ensures outcome { Outcome ⟦<RunNet<H> as Net>⟧ ⟦<RunLink<H> as Link>⟧
        ⟦<RunDisk as PageDisk>⟧.state (texts words.now)
        (streams (end_of (S.left source.old) (S.failures source.old))
        (end_of (K.taken out.old) (K.failures out.old))
        (end_of (B.taken binlog.old) (B.failures binlog.old)))
        (streams (end_of (S.left source.new) (S.failures source.new))
        (end_of (K.taken out.new) (K.failures out.new))
        (end_of (B.taken binlog.new) (B.failures binlog.new)))
        (disks (⟦<RunDisk as PageDisk>⟧.state donor) (⟦<RunDisk as PageDisk>⟧.state recipient))
        (ends result.status (disks (⟦<RunDisk as PageDisk>⟧.state result.donor)
        (⟦<RunDisk as PageDisk>⟧.state result.recipient)) result.drops.list
        (option_map stop_of result.stop))
        (means net crew.old) (means result.net crew.new) }
    ensures source { StopsAtFailure S.left S.failures source.old source.new }
{
    match parse(alloc, words) {
        Ok(command) => {
            let (left, net) = obey(
                rt, alloc, command, source, out, binlog, donor, recipient, net, crew, gate,
            );
            hand_back(left, net)
        }
        Err(refusal) => {
            let status = say_no_command(out, refusal);
            hand_back(leave(alloc, status, donor, recipient), net)
        }
    }
}

/// Hands back what a run leaves.
fn hand_back<H>(left: Left<RunDisk, RunDisk>, net: RunNet<H>) -> Ended<H>
    ensures { result ≡ record {
      status = number_of left.status;
      donor = left.donor;
      recipient = left.recipient;
      net = net;
      drops = left.drops;
      stop = left.stop;
    } }
{
    let Left {
        status,
        donor,
        recipient,
        drops,
        stop,
    } = left;
    Ended {
        status: status.number(),
        donor,
        recipient,
        net,
        drops,
        stop,
    }
}

/// What a run leaves, with its status as it is.
pub struct Left<D, R> {
    /// The status.
    pub status: Status,
    /// The donor's disk.
    pub donor: D,
    /// The recipient's disk.
    pub recipient: R,
    /// The drops of tables.
    pub drops: Drops,
    /// The stop of the clone, if it came to that.
    pub stop: Option<Stop>,
}

/// What a run leaves that carried out no script.
pub fn leave<D: PageDisk, R: PageDisk>(
    alloc: Global,
    status: Status,
    donor: D,
    recipient: R,
) -> Left<D, R>
    ensures status { result.status ≡ status }
    ensures donor { D.state result.donor ≡ D.state donor }
    ensures recipient { R.state result.recipient ≡ R.state recipient }
    ensures drops { result.drops.list ≡ [] }
    ensures stop { result.stop ≡ None }
{
    Left {
        status,
        donor,
        recipient,
        drops: Drops::new(alloc),
        stop: None,
    }
}

/// Does what a command line asks for.
fn obey<
    S: Source,
    K: Sink,
    B: Sink,
    T: Threads,
    G: Gate + Send + Sync + Drop + 'static,
    H: Wait + Clock + Copy + Send + Sync + Drop + 'static,
>(
    rt: H,
    alloc: Global,
    command: Command<'_>,
    source: &mut S,
    out: &mut K,
    binlog: &mut B,
    donor: RunDisk,
    recipient: RunDisk,
    net: RunNet<H>,
    crew: &mut Crew<T>,
    gate: Arc<G>,
) -> (Left<RunDisk, RunDisk>, RunNet<H>)
    requires { IsRunInRange command }
    ensures outcome { (number : ℕ) → OutcomeOf ⟦<RunNet<H> as Net>⟧ ⟦<RunLink<H> as Link>⟧
        ⟦<RunDisk as PageDisk>⟧.state command.entry result.0.status
        (streams (end_of (S.left source.old) (S.failures source.old))
        (end_of (K.taken out.old) (K.failures out.old))
        (end_of (B.taken binlog.old) (B.failures binlog.old)))
        (streams (end_of (S.left source.new) (S.failures source.new))
        (end_of (K.taken out.new) (K.failures out.new))
        (end_of (B.taken binlog.new) (B.failures binlog.new)))
        (disks (⟦<RunDisk as PageDisk>⟧.state donor) (⟦<RunDisk as PageDisk>⟧.state recipient))
        (ends number (disks (⟦<RunDisk as PageDisk>⟧.state result.0.donor)
        (⟦<RunDisk as PageDisk>⟧.state result.0.recipient)) result.0.drops.list
        (option_map stop_of result.0.stop))
        (means net crew.old) (means result.1 crew.new) }
    ensures source { StopsAtFailure S.left S.failures source.old source.new }
{
    match command {
        Command::Steps => (run_steps(alloc, source, out, binlog, donor, recipient), net),
        Command::Run(run) => {
            run_or_refuse(
                rt, alloc, run, out, binlog, donor, recipient, net, crew, gate,
            )
        }
        Command::Recover(_) => (run_recover(alloc, out, donor, recipient), net),
        Command::Dump(_) => (run_dump(alloc, out, donor, recipient), net),
    }
}

/// Reads a script from the source, and carries it out over two disks.
fn run_steps<S: Source, K: Sink, B: Sink, D: PageDisk, R: PageDisk>(
    alloc: Global,
    source: &mut S,
    out: &mut K,
    binlog: &mut B,
    donor: D,
    recipient: R,
) -> Left<D, R>
    ensures outcome { (number : ℕ) → StepsOutcome result.status
        (streams (end_of (S.left source.old) (S.failures source.old))
        (end_of (K.taken out.old) (K.failures out.old))
        (end_of (B.taken binlog.old) (B.failures binlog.old)))
        (streams (end_of (S.left source.new) (S.failures source.new))
        (end_of (K.taken out.new) (K.failures out.new))
        (end_of (B.taken binlog.new) (B.failures binlog.new)))
        (disks (D.state donor) (R.state recipient))
        (ends number (disks (D.state result.donor) (R.state result.recipient)) result.drops.list
        (option_map stop_of result.stop)) }
    ensures source { StopsAtFailure S.left S.failures source.old source.new }
{
    match read_source(alloc, source) {
        Ok(script) => run_script(alloc, &script, out, binlog, donor, recipient),
        Err(unread) => leave(alloc, say_unread(alloc, out, unread), donor, recipient),
    }
}

/// Recovers the recipient's disk, and says up to where.
fn run_recover<K: Sink, D: PageDisk, R: PageDisk>(
    alloc: Global,
    out: &mut K,
    donor: D,
    recipient: R,
) -> Left<D, R>
    ensures { (number : ℕ) (source binlog : End) → DiskOutcome SaysRecovered result.status
        (streams source (end_of (K.taken out.old) (K.failures out.old)) binlog)
        (streams source (end_of (K.taken out.new) (K.failures out.new)) binlog)
        (disks (D.state donor) (R.state recipient))
        (ends number (disks (D.state result.donor) (R.state result.recipient)) result.drops.list
        (option_map stop_of result.stop)) }
{
    let mut recipient = recipient;
    let status = say_recovered(alloc, out, &mut recipient);
    leave(alloc, status, donor, recipient)
}

/// Recovers the recipient's disk, and writes its rows.
fn run_dump<K: Sink, D: PageDisk, R: PageDisk>(
    alloc: Global,
    out: &mut K,
    donor: D,
    recipient: R,
) -> Left<D, R>
    ensures { (number : ℕ) (source binlog : End) → DiskOutcome SaysRows result.status
        (streams source (end_of (K.taken out.old) (K.failures out.old)) binlog)
        (streams source (end_of (K.taken out.new) (K.failures out.new)) binlog)
        (disks (D.state donor) (R.state recipient))
        (ends number (disks (D.state result.donor) (R.state result.recipient)) result.drops.list
        (option_map stop_of result.stop)) }
{
    let mut recipient = recipient;
    let status = say_rows(alloc, out, &mut recipient);
    leave(alloc, status, donor, recipient)
}

/// Why nothing is begun over two disks.
#[derive(Clone, Copy, Debug, PartialEq, Eq)]
pub enum Unready {
    /// The donor's disk failed.
    DonorFault,
    /// The recipient's disk failed.
    RecipientFault,
    /// A disk holds a space or a mark.
    NotEmpty,
    /// There was no memory.
    Memory,
}

/// Nothing is begun, and the disks are given back.
pub struct Unbegun<D, R> {
    /// Why.
    pub why: Unready,
    /// The donor's disk.
    pub donor: D,
    /// The recipient's disk.
    pub recipient: R,
}

/// A donor that was opened, and the disk of a recipient.
pub struct Begun<D: PageDisk, R> {
    /// The donor, of which nothing was asked.
    pub donor: Donor<D>,
    /// The recipient's disk, which is empty.
    pub recipient: R,
}

/// Carries out a script over two disks, and says how the run ended.
fn run_script<K: Sink, B: Sink, D: PageDisk, R: PageDisk>(
    alloc: Global,
    script: &Script,
    out: &mut K,
    binlog: &mut B,
    donor: D,
    recipient: R,
) -> Left<D, R>
    requires config { IsConfig script.now.config }
    requires terms { IsTerms script.now.terms }
    ensures { (number : ℕ) (before after : End)
        → IsRead before after script.now.config script.now.terms script.now.lines.items
        → StepsOutcome result.status
        (streams before (end_of (K.taken out.old) (K.failures out.old))
        (end_of (B.taken binlog.old) (B.failures binlog.old)))
        (streams after (end_of (K.taken out.new) (K.failures out.new))
        (end_of (B.taken binlog.new) (B.failures binlog.new)))
        (disks (D.state donor) (R.state recipient))
        (ends number (disks (D.state result.donor) (R.state result.recipient)) result.drops.list
        (option_map stop_of result.stop)) }
{
    let mut world = match begin(alloc, script, donor, recipient) {
        Ok(world) => world,
        Err(
            Unbegun {
                why,
                donor,
                recipient,
            },
        ) => {
            return leave(alloc, say_unready(out, why), donor, recipient);
        }
    };
    let status = run_lines(alloc, &script.lines, out, binlog, &mut world);
    run_laws();
    plain_laws();
    world.laws();
    let stop = world.stop();
    let (donor, recipient, drops) = world.into_disks();
    Left {
        status,
        donor,
        recipient,
        drops,
        stop,
    }
}

/// Looks whether both disks are empty, and begins a world over them.
fn begin<D: PageDisk, R: PageDisk>(
    alloc: Global,
    script: &Script,
    donor: D,
    recipient: R,
) -> Result<World<D, R>, Unbegun<D, R>>
    requires config { IsConfig script.now.config }
    requires terms { IsTerms script.now.terms }
    ensures new { IfOk result (IsNew script.now.config script.now.terms) }
    ensures empty { OnOk result (AreEmpty (disks (D.state donor) (R.state recipient))) }
    ensures donor { IfOk result
        (λ world. Visits (D.state donor) world.donor.donor.engine.disk) }
    ensures recipient { IfOk result
        (λ world. Visits (R.state recipient) world.donor.recipient) }
    ensures why { IfErr result (λ unbegun. IsUnready (disks (D.state donor) (R.state recipient))
        (disks (D.state unbegun.donor) (R.state unbegun.recipient)) unbegun.why) }
{
    let Begun { donor, recipient } = open_donor(alloc, script.config, donor, recipient)?;
    Ok(World::new(alloc, donor, recipient, script.terms))
}

/// Looks whether both disks are empty, and opens a donor over the one.
pub fn open_donor<D: PageDisk, R: PageDisk>(
    alloc: Global,
    config: Config,
    donor: D,
    recipient: R,
) -> Result<Begun<D, R>, Unbegun<D, R>>
    requires config { IsConfig config }
    ensures new { IfOk result (λ begun. IsNewDonor config begun.donor) }
    ensures empty { OnOk result (AreEmpty (disks (D.state donor) (R.state recipient))) }
    ensures donor { IfOk result (λ begun. Visits (D.state donor) begun.donor.engine.disk) }
    ensures recipient { IfOk result
        (λ begun. Looks (R.state recipient) (R.state begun.recipient)) }
    ensures why { IfErr result (λ unbegun. IsUnready (disks (D.state donor) (R.state recipient))
        (disks (D.state unbegun.donor) (R.state unbegun.recipient)) unbegun.why) }
{
    let mut donor = donor;
    let mut recipient = recipient;
    if let Err(why) = look(alloc, &mut donor, &mut recipient) {
        return Err(Unbegun {
            why,
            donor,
            recipient,
        });
    }
    match Donor::open(alloc, donor, config) {
        Ok(donor) => Ok(Begun { donor, recipient }),
        Err(OpenRefusal { cause, disk }) => Err(Unbegun {
            why: Unready::from(cause),
            donor: disk,
            recipient,
        }),
    }
}

/// Looks whether both disks are empty, the donor's first.
fn look<D: PageDisk, R: PageDisk>(
    alloc: Global,
    donor: &mut D,
    recipient: &mut R,
) -> Result<(), Unready>
    ensures empty { OnOk result (AreEmpty (disks (D.state donor.old) (R.state recipient.old))) }
    ensures donor { Reads (result ≡ Err Unready.DonorFault)
        (D.state donor.old) (D.state donor.new) }
    ensures recipient { Reads (result ≡ Err Unready.RecipientFault)
        (R.state recipient.old) (R.state recipient.new) }
    ensures ahead { result ≡ Err Unready.DonorFault
        → R.state recipient.new ≡ R.state recipient.old }
    ensures not_empty { result ≡ Err Unready.NotEmpty
        → WereNotEmpty (disks (D.state donor.old) (R.state recipient.old)) }
{
    let donor_empty = match is_empty(alloc, donor) {
        Ok(empty) => empty,
        Err(Refusal::Fault) => return Err(Unready::DonorFault),
        Err(Refusal::NoMemory) => return Err(Unready::Memory),
    };
    let recipient_empty = match is_empty(alloc, recipient) {
        Ok(empty) => empty,
        Err(Refusal::Fault) => return Err(Unready::RecipientFault),
        Err(Refusal::NoMemory) => return Err(Unready::Memory),
    };
    if !donor_empty || !recipient_empty {
        return Err(Unready::NotEmpty);
    }
    Ok(())
}

/// Carries out the lines of a script, and then writes the binlog.
fn run_lines<K: Sink, B: Sink, D: PageDisk, R: PageDisk>(
    alloc: Global,
    lines: &[Line],
    out: &mut K,
    binlog: &mut B,
    world: &mut World<D, R>,
) -> Status
    requires new { (config : Config) × (terms : Terms) × IsNew config terms world.old }
    ensures { EndsLines lines.now world.old world.new
        (end_of (K.taken out.old) (K.failures out.old))
        (end_of (K.taken out.new) (K.failures out.new))
        (end_of (B.taken binlog.old) (B.failures binlog.old))
        (end_of (B.taken binlog.new) (B.failures binlog.new)) result }
{
    match write_lines(alloc, lines, out, binlog, world) {
        Ok(()) => Status::from(world.ending()),
        Err(refusal) => Status::from(refusal),
    }
}

/// Carries out the lines of a script and writes their answers, and then the binlog.
fn write_lines<K: Sink, B: Sink, D: PageDisk, R: PageDisk>(
    alloc: Global,
    lines: &[Line],
    out: &mut K,
    binlog: &mut B,
    world: &mut World<D, R>,
) -> Result<(), Refusal>
    requires new { (config : Config) × (terms : Terms) × IsNew config terms world.old }
    ensures ok { OnOk result (Finished lines.now world.old world.new
        (K.taken out.old) (K.taken out.new) (B.taken binlog.old) (B.taken binlog.new)) }
    ensures err { OnErr result (Stopped lines.now world.old world.new
        (K.taken out.old) (K.taken out.new) (B.taken binlog.old) (B.taken binlog.new)) }
    ensures fault { IsErrOf result Refusal.Fault → Rose (K.failures out.old) (K.failures out.new)
        ⊎ Rose (B.failures binlog.old) (B.failures binlog.new) }
{
    carry_out(alloc, lines, out, world)?;
    let text = binlog_text(alloc, world.binlog())?;
    write_all(binlog, text.as_bytes())
}

/// Carries out the lines of a script in turn, and writes the answer of each.
fn carry_out<K: Sink, D: PageDisk, R: PageDisk>(
    alloc: Global,
    lines: &[Line],
    out: &mut K,
    world: &mut World<D, R>,
) -> Result<(), Refusal>
    requires { (config : Config) × (terms : Terms) × IsNew config terms world.old }
    ensures ok { OnOk result
        (AnsweredAll lines.now world.old world.new (K.taken out.old) (K.taken out.new)) }
    ensures err { OnErr result
        (AnsweredSome lines.now world.old world.new (K.taken out.old) (K.taken out.new)) }
    ensures cause { HasCause (K.failures out.old) (K.failures out.new) result }
{
    run_laws();
    for line in lines {
        carry_one(alloc, line, out, world)?;
    }
    Ok(())
}

/// Carries out one line, and writes its answer.
fn carry_one<K: Sink, D: PageDisk, R: PageDisk>(
    alloc: Global,
    line: &Line,
    out: &mut K,
    world: &mut World<D, R>,
) -> Result<(), Refusal>
    requires { IsWithin donor_of (2 ^ 63 - 1) world.old }
    ensures ok { OnOk result (Answered line.now world.old world.new (K.taken out.old)
        (K.taken out.new)) }
    ensures err { OnErr result
        (StoppedAtLine line.now world.old world.new (K.taken out.old) (K.taken out.new)) }
    ensures cause { HasCause (K.failures out.old) (K.failures out.new) result }
{
    let mut answer = world.event(alloc, line)?;
    answer.push('\n')?;
    write_all(out, answer.as_bytes())
}

/// Why a donor that isn't opened keeps the lines from being begun.
impl From<OpenCause> for Unready {
    ghost use Rattle.clone_top.specs.Looking.{unready_of};

    ghost from_gives = { λ cause unready. unready ≡ unready_of cause };

    fn from(cause: OpenCause) -> Unready {
        match cause {
            OpenCause::NotEmpty => Unready::NotEmpty,
            OpenCause::DiskFault => Unready::DonorFault,
            OpenCause::NoMemory => Unready::Memory,
        }
    }
}
