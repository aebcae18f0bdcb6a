// The public calls for C and Rust: answers as numbers, records as rows of cells (include/eon.h).
#![tactic(auto)]

ghost use Rattle.std.specs.Prelude.{◌≡◌, ◌≤◌, length};
ghost use Rattle.limits.specs.Limits as limit;
ghost use Rattle.grammar.specs.Texts.{outcome};
ghost use Rattle.lines.specs.Lines.{line_at};
ghost use Rattle.handin.specs.Handins.{reading};
ghost use Rattle.handin.specs.Answers.{told};
ghost use Rattle.display.specs.Shown.{literal_at, variable_at};
ghost use Rattle.effects.specs.Effects.{effect_at};
ghost use Rattle.asbestos_writer.specs.Writing.{kinds_of};
ghost use Rattle.exports.specs.Codes.{coded as code_of, replied as reply_code, put as place_code};
ghost use Rattle.exports.specs.Cells.{last_number, table as table_of, state_of, cells_of};
ghost use Rattle.exports.specs.Calls.{Analyzed, Asked, Replayed, Placed, written, Handed, Marked, Reasoned, Declared, Spanned, Desked};
ghost use Rattle.exports.specs.Ranges.{ShortRun, LowPlace, LowNumber, Shown, Small};

use analyzer_verdict::Analysis;
use asbestos_writer::CELLS;
use handin::{Run, Unreadable};
use limits::{LISTED, NONE, OBJECTS, RUN, TEXT};
use replay_session::{PlaceAnswer, Session};
use rows::{Refusal, Row};
use words::Kind;

// The cells beside an answer of the analysis, of which the last has the shown run's last place.
const LAST: usize = LISTED + 1;

const OUT: usize = LISTED + 2;

// The cells of a replay's state: behind the objects' states their number, the stages met, the first and the second carried object, and the places kept.
// 255 stays there for a carried object that is none: C lends these cells and reads them.
const MET: usize = OBJECTS + 1;

const FIRST: usize = OBJECTS + 2;

const SECOND: usize = OBJECTS + 3;

const KEPT: usize = OBJECTS + 4;

const SESSION: usize = OBJECTS + 5;

// The number of an analysis's answer.
// It and the two functions for a replay's answer and a place's stay functions, for the reason at `unpack`.
fn coded(answer: analyzer_verdict::Answer) -> u64
    requires { ShortRun answer }
    ensures { result ≡ code_of answer }
{
    match answer {
        analyzer_verdict::Answer::Unreached => words::word(Kind::Unreached, 0),
        analyzer_verdict::Answer::Reached { places, .. } => {
            words::word(Kind::Reached, places as u64)
        }
        analyzer_verdict::Answer::Refused { number, line } => words::refusal(number, line),
    }
}

// The number of a replay's answer.
fn replied(answer: Result<replay_session::Answer, Refusal>) -> u64
    requires { LowPlace answer }
    ensures { result ≡ reply_code answer }
{
    match answer {
        Ok(replay_session::Answer::Kept) => words::word(Kind::Kept, 0),
        Ok(replay_session::Answer::Broken { place }) => words::word(Kind::Broken, place as u64),
        Err(r) => words::refused(r),
    }
}

// The number of the answer to one place.
fn placed(answer: Result<PlaceAnswer, Refusal>) -> u64
    requires { LowNumber answer }
    ensures { result ≡ place_code answer }
{
    match answer {
        Ok(PlaceAnswer::Kept { stood }) => words::word(Kind::Kept, stood as u64),
        Ok(PlaceAnswer::Broken { place }) => words::word(Kind::Broken, place as u64),
        Err(r) => words::refused(r),
    }
}

// The number of the shown run's last place, 0 where there is no run.
// 0 stays for no run: this is a cell that C lends.
fn last_number(answer: analyzer_verdict::Answer, run: &[u32]) -> u32
    requires { Shown (length run.now) answer }
    ensures { result ≡ last_number answer run.now }
{
    match answer {
        analyzer_verdict::Answer::Reached { places, .. } => run[places - 1],
        analyzer_verdict::Answer::Unreached | analyzer_verdict::Answer::Refused { .. } => 0,
    }
}

// The cells beside an answer of the analysis.
fn table(a: Analysis, last: u32) -> [u32; OUT]
    requires { a.count ≤ limit.listed }
    ensures { result ≡ table_of a last }
{
    let states = a.states;
    let mut cells = [0u32; OUT];
    cells[0] = a.count as u32;
    cells[LAST] = last;
    cells[1..LAST].copy_from_slice(&states);
    cells
}

// Writes the cells beside the answer of an analysis, and answers its number.
fn told(a: Analysis, run: &[u32], out: &mut [u32; OUT]) -> u64
    requires { ShortRun a.answer × Shown (length run.now) a.answer × (a.count ≤ limit.listed) }
    ensures { (result ≡ code_of a.answer) × (out.new ≡ table_of a (last_number a.answer run.now)) }
{
    let last = last_number(a.answer, run);
    let cells = table(a, last);
    *out = cells;
    coded(a.answer)
}

// The replay's state that the cells say, where 255 is no carried object.
// It stays a function: neither `Session` nor the array is a type of this crate, so that no `From` can be written here.
fn unpack(cells: [u32; SESSION]) -> Session
    ensures { (result ≡ state_of cells) × Small result }
{
    let mut states = [0u32; OBJECTS];
    states.copy_from_slice(&cells[..OBJECTS]);
    let first = replay_meetings::as_object(cells[FIRST]);
    let second = replay_meetings::as_object(cells[SECOND]);
    Session {
        states,
        objects: cells[OBJECTS] as usize,
        met: cells[MET] as usize,
        carried: [first, second],
        kept: cells[KEPT] as usize,
    }
}

// The cells of a replay's state, with 255 for a carried object that is none.
// It stays a function: neither `Session` nor the array is a type of this crate, so that no `From` can be written here.
fn pack(s: Session) -> [u32; SESSION]
    requires { Small s }
    ensures { result ≡ cells_of s }
{
    let states = s.states;
    let carried = s.carried;
    let mut cells = [0u32; SESSION];
    cells[OBJECTS] = s.objects as u32;
    cells[MET] = s.met as u32;
    cells[FIRST] = carried[0].unwrap_or(NONE as usize) as u32;
    cells[SECOND] = carried[1].unwrap_or(NONE as usize) as u32;
    cells[KEPT] = s.kept as u32;
    cells[..OBJECTS].copy_from_slice(&states);
    cells
}

// Analyzes a text.
#[unsafe(no_mangle)]
pub extern "C" fn eon_analyze(
    text: &[u8],
    work: &mut [u8],
    run: &mut [u32],
    out: &mut [u32; OUT],
) -> u64
    ensures { Analyzed text.now work.old run.old result work.new run.new out.new }
{
    let analysis = analyzer::analyze(text, work, run);
    told(analysis, run, out)
}

// Asks what can still become of an object after the places.
#[unsafe(no_mangle)]
pub extern "C" fn eon_from(
    text: &[u8],
    before: &[u32],
    object: u32,
    work: &mut [u8],
    run: &mut [u32],
    out: &mut [u32; OUT],
) -> u64
    ensures { Asked text.now before.now object work.old run.old result work.new run.new out.new }
{
    let analysis = from_here::from_here(text, before, object, work, run);
    told(analysis, run, out)
}

// Replays a run over a text, and notes who stood by at each kept step.
#[unsafe(no_mangle)]
pub extern "C" fn eon_replay(text: &[u8], run: &[u32], work: &mut [u8], table: &mut [u32]) -> u64
    ensures { Replayed text.now run.now work.old table.old result work.new table.new }
{
    replied(replay::replay(text, run, work, table))
}

// Puts one place to a lent state.
#[unsafe(no_mangle)]
pub extern "C" fn eon_place(
    text: &[u8],
    session: &mut [u32; SESSION],
    place: u32,
    work: &mut [u8],
) -> u64
    ensures { Placed text.now session.old place work.old result session.new work.new }
{
    let cells = *session;
    let mut state = unpack(cells);
    let answer = lent::put(text, &mut state, place, work);
    let left = pack(state);
    *session = left;
    placed(answer)
}

// The line of clause i of an accepted text, and what stands on it.
#[unsafe(no_mangle)]
pub extern "C" fn eon_line(text: &[u8], i: usize) -> u64
    ensures { result ≡ line_at (outcome text.now) i }
{
    lines::line(text, i)
}

// Writes the run of a hand-in that says yes into the table.
fn write_run(handin: &[u8], said: Result<Option<Run>, Unreadable>, run: &mut [u32])
    requires { (limit.run ≤ length run.old) × (said ≡ told (reading handin.now)) }
    ensures { run.new ≡ written (reading handin.now) run.old }
{
    if let Ok(Some(_)) = said {
        handin::write(handin, run);
    }
}

// Reads a hand-in, and writes its run into the table.
#[unsafe(no_mangle)]
pub extern "C" fn eon_handin(handin: &[u8], run: &mut [u32]) -> u64
    ensures { Handed handin.now run.old result run.new }
{
    if run.len() < RUN {
        return words::refused(Row::Lent.refusal());
    }
    let said = handin::read(handin);
    write_run(handin, said, run);
    codes::handed(said)
}

// Marks a hand-in to a text.
#[unsafe(no_mangle)]
pub extern "C" fn eon_mark(
    text: &[u8],
    handin: &[u8],
    work: &mut [u8],
    run: &mut [u32],
    stood: &mut [u32],
) -> u64
    ensures { Marked text.now handin.now work.old run.old stood.old result work.new run.new stood.new }
{
    codes::marked(words::by_number(marker::mark(text, handin, work, run, stood)))
}

// Replays a run over a text, notes who stood by at each kept step, and says why it breaks.
#[unsafe(no_mangle)]
pub extern "C" fn eon_why(text: &[u8], run: &[u32], work: &mut [u8], table: &mut [u32]) -> u64
    ensures { Reasoned text.now run.now work.old table.old result work.new table.new }
{
    reason_codes::explained(words::by_number(explain::explain(text, run, work, table)))
}

// What a line of an accepted text makes of an object in a state.
#[unsafe(no_mangle)]
pub extern "C" fn eon_effect(text: &[u8], line: u32, state: u32) -> u64
    ensures { result ≡ effect_at (outcome text.now) line state }
{
    effects::effect(text, line, state)
}

// Declared relation i of an accepted text.
#[unsafe(no_mangle)]
pub extern "C" fn eon_relation(text: &[u8], i: usize) -> u64
    ensures { Declared text.now i result }
{
    codes::declared(display::relation(text, i))
}

// Literal k of a line's clause, which is stage 0, or of a stage of an `ask` line.
// The test of the length stays here and in `eon_variable`: a function for it would be handed what was read of a line that is too long, or would take the reading as a closure, with a contract over it that is longer than these three lines.
#[unsafe(no_mangle)]
pub extern "C" fn eon_literal(line: &[u8], stage: usize, k: usize) -> u64
    ensures { Spanned line.now (literal_at line.now stage k) result }
{
    if TEXT < line.len() {
        return 0;
    }
    codes::spanned(display::literal(line, stage, k))
}

// Variable j of a line's clause, which is stage 0, or of a stage of an `ask` line.
#[unsafe(no_mangle)]
pub extern "C" fn eon_variable(line: &[u8], stage: usize, j: usize) -> u64
    ensures { Spanned line.now (variable_at line.now stage j) result }
{
    if TEXT < line.len() {
        return 0;
    }
    codes::spanned(display::variable(line, stage, j))
}

// Writes the text for Asbestos labels: the first kinds, so many, a port level and the asked receive level.
#[unsafe(no_mangle)]
pub extern "C" fn eon_asbestos(
    kinds: &[u32; CELLS],
    count: usize,
    port: u32,
    level: u32,
    out: &mut [u8],
) -> u64
    ensures { Desked (kinds_of kinds.now count) port level out.old result out.new }
{
    asbestos_desk::coded(words::by_number(asbestos_desk::write(out, kinds, count, port, level)))
}
