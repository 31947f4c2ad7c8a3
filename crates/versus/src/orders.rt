// Lists of calls through the scheduler and through the second scheduler, each answer and each state compared, and the claim of document 02,
// slip 7, at the end. Lists 0 to 2 start fresh, lists 3 to 5 at a drawn state; `second::calls` draws them.
use crate::library::Tables;
use crate::print::Spot;
use crate::{compare, library};
use second::calls::Turn;
use second::issue::{How, Reply};
use second::number::at;
use second::simulator::{NEVER, key_of};
use second::{calls, graph, issue, layout, number, simulator, start};
use std::io::Result;

// Places of the counts. Of calls that are not refused, requests, grants and finishes stand from 3 on; refusals with 10 to 15 from 7 on;
// 14 and 15 by running threads at 14 and 15.
const MODELS: u64 = 0;

const LISTS: u64 = 1;

const CALLS: u64 = 2;

const DONE: u64 = 3;

const LATER: u64 = 6;

const OUT_OF_TURN: u64 = 13;

const FULL: u64 = 16;

const TWO_RUNNING: u64 = 17;

const MOST_RUNNING: u64 = 18;

const ENDED: u64 = 19;

const WENT_ON: u64 = 20;

const OVERRUNS: u64 = 21;

// What is held before a list for threads that are not running: call by call, in one call with the table, and in one call by rows.
const JUNK: u64 = 3735928559;

const TABLE_JUNK: u64 = 2863311530;

const ROWS_JUNK: u64 = 1431655765;

// A list: seed and number, how many calls were made and not refused, how many segments were granted, the stamp from which it goes on where
// the last call was refused, whether the list goes on, and what each thread has run.
#[derive(Clone, Copy)]
struct List {
    seed: u64,
    number: u64,
    made: u64,
    done: u64,
    ran: u64,
    last: Option<u64>,
    goes_on: bool,
    told: [u64; 32],
}

// A list on both sides: the second side's desk and what is held beside it, the library's state as words and its held values.
#[derive(Drop)]
struct Sides {
    desk: [u64; 640],
    kept: [u64; 2048],
    held: [u64; 640],
    values: [u32; 2048],
}

// The calls that were made, and the second scheduler's answers, five words each.
#[derive(Drop)]
struct Calls {
    words: [u16; 4096],
    answers: [u64; 20480],
}

// Which call a word is, and of which thread; one of no call is a finish of thread 255.
fn how_of(word: u64) -> How {
    if word < 768 {
        calls::how_of(word / 256)
    } else {
        How::Finish
    }
}

fn thread_of(word: u64) -> u64 {
    if word < 768 { word % 256 } else { 255 }
}

fn count_running(totals: &mut [u64; 24], desk: &[u64; 640]) {
    let n = calls::running(desk);
    if 1 < n {
        crate::add(totals, TWO_RUNNING, 1);
    }
    let most = &mut totals[MOST_RUNNING as usize];
    *most = n.max(*most);
}

// A refusal of thread k. Those with 15 at the floor are those of a log that is full for any thread.
fn count_refusal(
    totals: &mut [u64; 24],
    graph: &[u64; 24576],
    desk: &[u64; 640],
    k: u64,
    number: u64,
    floor: u64,
) {
    if number == 19 {
        crate::add(totals, OUT_OF_TURN, 1);
        return;
    }
    crate::add(totals, number.wrapping_sub(3), 1);
    if number < 14 {
        return;
    }
    if number == 15 && key_of(at(desk, simulator::RECORDS, k)) == floor {
        crate::add(totals, FULL, 1);
    }
    if 0 < calls::running(desk) && issue::is_by_running(graph, desk, k, number) {
        crate::add(totals, number, 1);
    }
}

// A call that is not refused, at a key.
fn count_done(totals: &mut [u64; 24], how: How, key: u64, floor: u64) {
    crate::add(totals, DONE + how as u64, 1);
    if how != How::Finish && floor < key {
        crate::add(totals, LATER, 1);
    }
}

impl List {
    fn spot(&self) -> Spot {
        Spot {
            seed: self.seed,
            list: self.number,
            call: self.made,
        }
    }

    // One more call made, with the library's answer.
    fn note(&mut self, call: Turn, r: Reply, same: bool) {
        self.made = self.made.wrapping_add(1);
        self.goes_on = same;
        self.last = call.stamp;
        if r.number == 0 {
            self.last = None;
            self.done = self.done.wrapping_add(1);
            if how_of(call.word) != How::Finish {
                self.ran = self.ran.wrapping_add(1);
                let told = &mut self.told[(call.word % 32) as usize];
                let key = r.time % 4294967296 * 1024 + r.delta % 1024;
                *told = simulator::told(*told, r.segment, key);
            }
        }
    }
}

impl Calls {
    // Call n and the second scheduler's answer.
    fn note(&mut self, n: u64, word: u64, r: Reply) {
        let n = (n % 4096) as usize;
        self.words[n] = (word % 65536) as u16;
        self.answers[5 * n] = word;
        self.answers[5 * n + 1] = r.number;
        self.answers[5 * n + 2] = r.segment;
        self.answers[5 * n + 3] = r.time;
        self.answers[5 * n + 4] = r.delta;
    }
}

// A call in the second scheduler.
fn issue_next(
    totals: &mut [u64; 24],
    file: &[u8],
    graph: &[u64; 24576],
    sides: &mut Sides,
    word: u64,
) -> Reply {
    let floor = issue::floor(&sides.desk);
    let how = how_of(word);
    let k = thread_of(word);
    let key = key_of(at(&sides.desk, simulator::RECORDS, k));
    let r = issue::call(file, graph, &mut sides.desk, &mut sides.kept, how as u64, k);
    crate::add(totals, CALLS, 1);
    if r.number == 0 {
        count_done(totals, how, key, floor);
    } else {
        count_refusal(totals, graph, &sides.desk, k, r.number, floor);
    }
    count_running(totals, &sides.desk);
    crate::add(totals, OVERRUNS, r.overruns);
    r
}

// How many records are lent to the n-th call of a model with t threads: t, one more, or 40.
fn lent(t: u64, n: u64) -> usize {
    let few = (t % 33) as usize;
    match n % 3 {
        0 => few,
        1 => few + 1,
        _ => 40,
    }
}

// Both answers and both states.
fn hold_turn<R: Print>(
    rt: &R,
    totals: &mut [u64; 24],
    spot: Spot,
    sides: &Sides,
    a: Reply,
    b: Reply,
) -> Result<bool> {
    let mut first = sides.held;
    layout::put_reply(&mut first, a);
    let mut other = layout::words_of(&sides.desk);
    layout::put_reply(&mut other, b);
    compare::hold(rt, totals, spot, &first, &other, layout::ALL)
}

// The next call in both.
fn turn<R: Print>(
    rt: &R,
    totals: &mut [u64; 24],
    calls: &mut Calls,
    tables: Tables,
    graph: &[u64; 24576],
    sides: &mut Sides,
    l: &mut List,
) -> Result<()> {
    let Some(now) = calls::next(&sides.desk, l.seed, l.number, l.made, l.last) else {
        l.goes_on = false;
        return Ok(());
    };
    let lent = lent(at(&sides.desk, simulator::THREADS, 0), l.made);
    let b = issue_next(totals, tables.file, graph, sides, now.word);
    let a = library::ask(tables, &mut sides.held, &mut sides.values, now.word, lent);
    calls.note(l.made, now.word, b);
    let same = hold_turn(rt, totals, l.spot(), sides, a, b)?;
    l.note(now, a, same);
    Ok(())
}

// Some lists are long enough for delta 1,023.
fn length(seed: u64, list: u64) -> u64 {
    if seed % 240 == 23 && (list == 1 || list == 2) {
        return 3500;
    }
    if list % 3 == 0 { 24 } else { 48 }
}

// A list in both, up to the first difference.
fn one_by_one<R: Print>(
    rt: &R,
    totals: &mut [u64; 24],
    calls: &mut Calls,
    tables: Tables,
    graph: &[u64; 24576],
    sides: &mut Sides,
    l: &mut List,
) -> Result<()> {
    for _ in 0..length(l.seed, l.number) {
        if l.goes_on {
            turn(rt, totals, calls, tables, graph, sides, l)?;
        }
    }
    Ok(())
}

// What a list in one call left: every answer again, how many were not refused, the state at its end, and what is held.
fn hold_whole<R: Print>(
    rt: &R,
    totals: &mut [u64; 24],
    answers: &[u64; 20480],
    out: &[u64; 20480],
    sides: &Sides,
    held: &[u64; 640],
    values: &[u32; 2048],
    junk: u64,
    l: &List,
) -> Result<()> {
    let mut left = layout::words_of(&sides.desk);
    left[layout::RAN] = l.done;
    let spot = l.spot();
    compare::hold(rt, totals, spot, held, &left, layout::ALL)?;
    let n = (l.made % 4096 * 5) as usize;
    compare::hold(rt, totals, spot, out, answers, n + 5)?;
    compare::hold_kept(rt, totals, spot, values, junk, &sides.kept, JUNK)
}

// The same list in one call, from the state that it started at: with the table, and by rows.
fn whole<R: Print>(
    rt: &R,
    totals: &mut [u64; 24],
    calls: &Calls,
    tables: Tables,
    sides: &Sides,
    begun: &[u64; 640],
    l: &List,
) -> Result<()> {
    let asked = number::first(&calls.words, l.made as usize);
    let answers = &calls.answers;
    let mut out = [0u64; 20480];
    let mut held = layout::words_of(begun);
    let mut values = library::values_at(begun, l.seed, TABLE_JUNK);
    library::ask_all(tables, &mut held, &mut values, asked, &mut out);
    hold_whole(
        rt, totals, answers, &out, sides, &held, &values, TABLE_JUNK, l,
    )?;
    let mut again = [0u64; 20480];
    let mut state = layout::words_of(begun);
    let mut other = library::values_at(begun, l.seed, ROWS_JUNK);
    library::ask_all_by_rows(
        tables.file,
        junk(l),
        &mut state,
        &mut other,
        asked,
        &mut again,
    );
    hold_whole(
        rt, totals, answers, &again, sides, &state, &other, ROWS_JUNK, l,
    )
}

// What the words of a row hold beforehand: nothing, all ones, or some distance.
fn junk(l: &List) -> u64 {
    match (l.seed / 3).wrapping_add(l.number) % 3 {
        0 => 0,
        1 => NEVER,
        _ => 1025,
    }
}

// Histories, in place of the log.
fn put_histories(words: &mut [u64; 640], told: &[u64; 32]) {
    words[layout::LOG] = 0;
    for (k, x) in (0..).zip(told) {
        number::put(words, layout::PAIRS, k, *x);
    }
}

fn histories_on(desk: &[u64; 640]) -> [u64; 32] {
    let mut told = [0u64; 32];
    for (k, x) in told.iter_mut().enumerate() {
        *x = at(desk, simulator::HISTORIES, k as u64);
    }
    told
}

// The claim at the end of a list that started fresh. "ends with nothing running and nothing ready up to the horizon": variables, records
// and histories are the plain run's, of as many segments as were granted.
fn hold_ended<R: Print>(
    rt: &R,
    totals: &mut [u64; 24],
    file: &[u8],
    held: &[u64; 640],
    l: &List,
) -> Result<()> {
    let mut other = [0u64; 640];
    simulator::simulate(file, l.ran.wrapping_add(1), &mut other);
    let mut first = *held;
    first[layout::RAN] = l.ran;
    put_histories(&mut first, &l.told);
    let mut plain = layout::words_of(&other);
    put_histories(&mut plain, &histories_on(&other));
    let n = layout::PLAIN + 33;
    compare::hold(rt, totals, l.spot(), &first, &plain, n)?;
    crate::add(totals, ENDED, 1);
    Ok(())
}

// The call that "is not refused", if there is one: a finish of a running thread, or the least stamp's request or grant.
fn next_done(desk: &[u64; 640], l: &List) -> Option<u64> {
    if let Some(k) = calls::running_from(desk, l.seed % 32) {
        return Some(calls::word_of(How::Finish as u64, k));
    }
    let least = calls::least_from(desk, 0)?;
    Some(calls::word_of(l.seed % 2, least % 256))
}

fn hold_ending<R: Print>(
    rt: &R,
    totals: &mut [u64; 24],
    tables: Tables,
    sides: &mut Sides,
    l: &List,
) -> Result<()> {
    let Some(word) = next_done(&sides.desk, l) else {
        return hold_ended(rt, totals, tables.file, &sides.held, l);
    };
    let r = library::ask(tables, &mut sides.held, &mut sides.values, word, 40);
    compare::hold_number(rt, totals, l.spot(), r.number, 0)?;
    crate::add(totals, WENT_ON, 1);
    Ok(())
}

// What both sides hold at the start of a list.
fn begin(desk: [u64; 640], seed: u64) -> Sides {
    let mut kept = [0u64; 2048];
    start::hold(&desk, seed, JUNK, &mut kept);
    Sides {
        desk,
        kept,
        held: layout::words_of(&desk),
        values: library::values_at(&desk, seed, JUNK),
    }
}

fn hold_list<R: Print>(
    rt: &R,
    totals: &mut [u64; 24],
    seed: u64,
    number: u64,
    tables: Tables,
    graph: &[u64; 24576],
) -> Result<()> {
    let mut begun = [0u64; 640];
    start::set_up(tables.file, seed, number, &mut begun);
    let mut sides = begin(begun, seed);
    let mut calls = Calls {
        words: [0; 4096],
        answers: [0; 20480],
    };
    let mut l = List {
        seed,
        number,
        made: 0,
        done: 0,
        ran: 0,
        last: None,
        goes_on: true,
        told: [0u64; 32],
    };
    one_by_one(rt, totals, &mut calls, tables, graph, &mut sides, &mut l)?;
    compare::hold_kept(rt, totals, l.spot(), &sides.values, JUNK, &sides.kept, JUNK)?;
    whole(rt, totals, &calls, tables, &sides, &begun, &l)?;
    crate::add(totals, LISTS, 1);
    if number < 3 {
        hold_ending(rt, totals, tables, &mut sides, &l)?;
    }
    Ok(())
}

// A thread that no fit state of a model with n segments, e events and a horizon has.
fn spoil_thread(held: &mut [u64; 640], way: u64, n: u64, e: u64, h: u64) {
    match way % 6 {
        0 => layout::put_five(held, 0, 0, 2, 0, 2000000001, 0),
        1 => layout::put_five(held, 0, 0, 1, 0, 0, 1024),
        2 => layout::put_five(held, 0, 0, 3, e, 0, 0),
        3 => layout::put_five(held, 0, 0, 0, 0, 2000000001, 0),
        4 => layout::put_five(held, 0, 0, 4, 0, h.wrapping_add(1), 0),
        _ => layout::put_five(held, 0, n, 2, 0, 0, 0),
    }
}

fn spoil_pair(held: &mut [u64; 640], way: u64, e: u64) {
    match way % 3 {
        0 => layout::put_three(held, layout::PAIRS, 0, 1000000001, 0),
        1 => layout::put_three(held, layout::PAIRS, 0, 0, 1024),
        _ => layout::put_three(held, layout::PAIRS, e, 0, 0),
    }
}

// Places past the log's count are 0.
fn clear_log(held: &mut [u64; 640]) {
    held[layout::LOG..layout::LOG + 385].fill(0);
}

// A state that is not fit: by its first thread, its first notification, or the log's count.
fn spoil(held: &mut [u64; 640], way: u64, n: u64, e: u64, h: u64) {
    match way % 3 {
        0 => spoil_thread(held, way / 3, n, e, h),
        1 => {
            clear_log(held);
            spoil_pair(held, way / 3, e);
            held[layout::LOG] = 1;
        }
        _ => held[layout::LOG] = 129,
    }
}

// Where states that are not fit stand.
fn unfit(seed: u64) -> Spot {
    Spot {
        seed,
        list: 6,
        call: 0,
    }
}

// 11, and all stays.
fn hold_unmoved<R: Print>(
    rt: &R,
    totals: &mut [u64; 24],
    seed: u64,
    number: u64,
    same: &[u64; 640],
    held: &[u64; 640],
) -> Result<()> {
    crate::add(totals, CALLS, 1);
    crate::add(totals, 8, 1);
    let spot = unfit(seed);
    compare::hold_number(rt, totals, spot, number, 11)?;
    compare::hold(rt, totals, spot, held, same, layout::ALL)?;
    Ok(())
}

// An unfit state, or too few records, are refused with 11.
fn refuse<R: Print>(
    rt: &R,
    totals: &mut [u64; 24],
    seed: u64,
    tables: Tables,
    held: &mut [u64; 640],
    k: u64,
    lent: usize,
) -> Result<()> {
    let same = *held;
    let r = library::request(tables, held, k, lent);
    hold_unmoved(rt, totals, seed, r.number, &same, held)
}

// So are a grant and a finish, on an unfit state, or with too few held values.
fn refuse_call<R: Print>(
    rt: &R,
    totals: &mut [u64; 24],
    seed: u64,
    tables: Tables,
    held: &mut [u64; 640],
    word: u64,
    n: usize,
) -> Result<()> {
    let same = *held;
    let mut values = [7u32; 2048];
    let r = library::call_with(tables, held, &mut values, word, n);
    hold_unmoved(rt, totals, seed, r.number, &same, held)?;
    compare::hold_kept(rt, totals, unfit(seed), &values, 7, &[7u64; 2048], 7)
}

// By rows: the answer of one request, and all stays.
fn hold_refused<R: Print>(
    rt: &R,
    totals: &mut [u64; 24],
    seed: u64,
    held: &[u64; 640],
    left: &mut [u64; 640],
    answer: u64,
    number: u64,
) -> Result<()> {
    let spot = Spot {
        seed,
        list: 7,
        call: 0,
    };
    compare::hold_number(rt, totals, spot, answer, number)?;
    left[layout::ANSWER] = held[layout::ANSWER];
    left[layout::RAN] = held[layout::RAN];
    compare::hold(rt, totals, spot, left, held, layout::ALL)?;
    Ok(())
}

// An unfit state is refused with 11 by rows too.
fn refuse_by_rows<R: Print>(
    rt: &R,
    totals: &mut [u64; 24],
    seed: u64,
    file: &[u8],
    held: &[u64; 640],
    word: u64,
) -> Result<()> {
    let mut left = *held;
    let mut out = [0u64; 20480];
    let mut values = [7u32; 2048];
    let asked = [(word % 65536) as u16; 1];
    library::ask_all_by_rows(file, seed, &mut left, &mut values, &asked, &mut out);
    hold_refused(rt, totals, seed, held, &mut left, out[1], 11)
}

// 63 words are refused with 16.
fn refuse_few<R: Print>(
    rt: &R,
    totals: &mut [u64; 24],
    seed: u64,
    file: &[u8],
    held: &[u64; 640],
    word: u64,
) -> Result<()> {
    let mut left = *held;
    let mut out = [0u64; 20480];
    let mut values = [7u32; 2048];
    let asked = [(word % 65536) as u16; 1];
    library::ask_few_by_rows(file, seed, &mut left, &mut values, &asked, &mut out);
    hold_refused(rt, totals, seed, held, &mut left, out[1], 16)
}

// A state that is not fit; for some seeds one beside distances that are out of range.
fn hold_unfit<R: Print>(rt: &R, totals: &mut [u64; 24], seed: u64, tables: Tables) -> Result<()> {
    let mut desk = [0u64; 640];
    let k = calls::any_thread(seed, start::set_up(tables.file, seed, 3, &mut desk));
    let mut held = layout::words_of(&desk);
    if seed % 4 == 0 {
        let far = [1024000001024u64; 4096];
        let far = Tables {
            file: tables.file,
            words: &far,
        };
        return refuse(rt, totals, seed, far, &mut held, k, 40);
    }
    let n = at(&desk, simulator::SEGMENTS, 0);
    let e = simulator::byte(tables.file, 9, 0);
    let h = simulator::field(tables.file, 4, 0, 4);
    spoil(&mut held, seed / 4, n, e, h);
    refuse(rt, totals, seed, tables, &mut held, k, 40)?;
    let word = calls::word_of(seed / 12, k);
    refuse_call(rt, totals, seed, tables, &mut held, word, 2048)?;
    refuse_by_rows(rt, totals, seed, tables.file, &held, word)
}

// None, or one less.
fn less_by(n: usize, seed: u64) -> usize {
    if n == 0 || seed % 4 < 2 {
        return 0;
    }
    n - 1
}

// The fresh state with no thread records lent, or one too few, and with held values too few.
fn hold_short<R: Print>(rt: &R, totals: &mut [u64; 24], seed: u64, tables: Tables) -> Result<()> {
    let mut desk = [0u64; 640];
    let t = start::set_up(tables.file, seed, 0, &mut desk);
    let mut held = layout::words_of(&desk);
    let few = if seed % 2 == 0 {
        0
    } else {
        t.saturating_sub(1)
    };
    let k = calls::any_thread(seed, t);
    refuse(rt, totals, seed, tables, &mut held, k, few as usize)?;
    let n = (64 * (t % 33)) as usize;
    let word = calls::word_of(seed / 2, k);
    refuse_call(rt, totals, seed, tables, &mut held, word, less_by(n, seed))
}

// The fresh state with 63 words lent, for a thread of the model or for none.
fn hold_few<R: Print>(rt: &R, totals: &mut [u64; 24], seed: u64, file: &[u8]) -> Result<()> {
    let mut desk = [0u64; 640];
    let t = start::set_up(file, seed, 0, &mut desk);
    let held = layout::words_of(&desk);
    let k = if seed % 2 == 0 { t } else { 0 };
    refuse_few(rt, totals, seed, file, &held, calls::word_of(seed / 2, k))
}

// The fresh state.
fn hold_fresh<R: Print>(
    rt: &R,
    totals: &mut [u64; 24],
    seed: u64,
    file: &[u8],
    desk: &[u64; 640],
) -> Result<()> {
    let mut held = [0u64; 640];
    library::fresh(file, &mut held);
    let words = layout::words_of(desk);
    let spot = Spot {
        seed,
        list: 0,
        call: 0,
    };
    compare::hold(rt, totals, spot, &held, &words, layout::ALL)?;
    Ok(())
}

fn hold_all<R: Print>(
    rt: &R,
    totals: &mut [u64; 24],
    seed: u64,
    tables: Tables,
    graph: &[u64; 24576],
) -> Result<()> {
    for list in 0..6 {
        hold_list(rt, totals, seed, list, tables, graph)?;
    }
    crate::add(totals, MODELS, 1);
    Ok(())
}

// All lists of the model in a file's first bytes.
pub fn hold_lists<R: Print>(
    rt: &R,
    totals: &mut [u64; 24],
    seed: u64,
    bytes: &[u8; 16384],
    size: usize,
) -> Result<()> {
    let file = number::first(bytes, size);
    let mut desk = [0u64; 640];
    start::set_up(file, seed, 0, &mut desk);
    let mut graph = [0u64; 24576];
    graph::fill(file, &desk, &mut graph);
    let mut words = [0u64; 4096];
    library::fill_words(file, &mut words);
    let tables = Tables {
        file,
        words: &words,
    };
    hold_fresh(rt, totals, seed, file, &desk)?;
    hold_unfit(rt, totals, seed, tables)?;
    hold_short(rt, totals, seed, tables)?;
    hold_few(rt, totals, seed, file)?;
    hold_all(rt, totals, seed, tables, &graph)
}
