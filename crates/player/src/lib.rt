// Plays a script of calls on a fresh module and prints each answer.
#![tactic(auto)]

ghost use Rattle.std.specs.Prelude.{◌≡◌, ◌<◌, ◌≤◌, [], ◌++◌, length, replicate, take};
ghost use Rattle.model.specs.State.{fresh_module};
ghost use Rattle.model.specs.Call.{call, sample};
ghost use Rattle.model.specs.Calls.{sample_call, temperature_call, spinel_call, Answered, run};
ghost use Rattle.script.specs.Lines.{parsed_line};
ghost use Rattle.script.specs.Results.{line_parsed};
ghost use Rattle.player.specs.Answers.{frame_text, characters_text, notice_text, printed, noticed};
ghost use Rattle.player.specs.Scripts.{frame_call, in_turn, line_calls, lines, lines_calls, script_calls};

use model::{Answer, Module};
use script::{Frame, Line};
use std::io::Read;
use texts::Text;

// The state after a call, and the text that is printed of its answer.
#[derive(Drop)]
struct Printed {
    after: Module,
    text: Text,
}

// The state after a sample, and the text of its notice, where there is one: most samples have none, and make no text.
#[derive(Drop)]
struct Noticed {
    after: Module,
    text: Option<Text>,
}

// One sample, and the line of its notice. Inlined into the loops of samples, as `play_sample` is.
#[inline(always)]
fn sample_text(m: Module, bits: u16) -> Noticed
    ensures { noticed result ≡ printed (sample_call 256 bits m) (notice_text (sample_call 256 bits m)) }
{
    let mut reply = [0u8; 256];
    let a = iomodule::sample(m, bits, &mut reply);
    if a.len == 0 {
        return Noticed {
            after: a.after,
            text: None,
        };
    }
    let text = texts::answer_text(a.refusal, &reply[..a.len]);
    Noticed {
        after: a.after,
        text: Some(text),
    }
}

// The port that a frame comes to. A closure in its place is no plainer: it would take the state, the frame and the lent buffer, and
// promise what is written there.
#[derive(Clone, Copy)]
enum Port {
    Spinel,
    Modbus,
}

// One frame on either port.
fn frame_call(m: Module, port: Port, frame: &[u8], reply: &mut [u8]) -> Answer
    ensures { Answered (frame_call port (length reply.old) frame.now m) result reply.old reply.new }
{
    match port {
        Port::Spinel => iomodule::spinel(m, frame, reply),
        Port::Modbus => iomodule::modbus(m, frame, reply),
    }
}

// One frame, and the line of its answer.
fn frame_text(m: Module, port: Port, frame: &[u8]) -> Printed
    ensures { result ≡ printed (frame_call port 256 frame.now m) (frame_text (frame_call port 256 frame.now m)) }
{
    let mut reply = [0u8; 256];
    let a = frame_call(m, port, frame, &mut reply);
    let text = texts::answer_text(a.refusal, &reply[..a.len]);
    Printed {
        after: a.after,
        text,
    }
}

// One frame in characters on the Spinel port, and the line of its answer.
fn characters_text(m: Module, frame: &[u8]) -> Printed
    ensures { result ≡ printed (spinel_call 256 frame.now m) (characters_text (spinel_call 256 frame.now m)) }
{
    let mut reply = [0u8; 256];
    let a = iomodule::spinel(m, frame, &mut reply);
    let text = texts::answer_characters(a.refusal, &reply[..a.len]);
    Printed {
        after: a.after,
        text,
    }
}

// What is printed has no contract: std's write_all promises nothing of it, and a write that fails is passed over.
// The text that it is given has one. Not inlined, so that a loop of samples which print nothing stays short.
#[inline(never)]
fn print_text(rt: &impl Print, text: Text) {
    let _ = rt.write_all(text.as_slice());
}

// One sample, its notice printed.
#[inline(always)]
fn play_sample(rt: &impl Print, m: Module, bits: u16) -> Module
    ensures { result ≡ (sample_call 256 bits m).after }
{
    let p = sample_text(m, bits);
    if let Some(text) = p.text {
        print_text(rt, text);
    }
    p.after
}

// The same bits some times.
fn play_samples(rt: &impl Print, m: Module, bits: u16, times: u16) -> Module
    ensures { result ≡ run m (replicate times (call 256 (sample bits))) }
{
    let mut after = m;
    for _turn in 0..times {
        after = play_sample(rt, after, bits);
    }
    after
}

// Two samples in turn, some times.
fn play_toggles(rt: &impl Print, m: Module, bits: u16, second: u16, times: u16) -> Module
    ensures { result ≡ run m (in_turn bits second times) }
{
    let mut after = m;
    for _turn in 0..times {
        let half = play_sample(rt, after, bits);
        after = play_sample(rt, half, second);
    }
    after
}

// A temperature prints nothing.
#[tactic(auto, unfolding(model::specs::Calls::temperature_call))]
fn play_temperature(m: Module, good: bool, tenths: i16) -> Module
    ensures { result ≡ (temperature_call 256 good tenths m).after }
{
    iomodule::temperature(m, good, tenths).after
}

// A frame, its answer printed.
fn play_frame(rt: &impl Print, m: Module, port: Port, frame: Frame) -> Module
    ensures { result ≡ (frame_call port 256 (take frame.len frame.items) m).after }
{
    let p = frame_text(m, port, frame.as_slice());
    print_text(rt, p.text);
    p.after
}

// A frame in characters, its answer printed.
fn play_text(rt: &impl Print, m: Module, frame: Frame) -> Module
    ensures { result ≡ (spinel_call 256 (take frame.len frame.items) m).after }
{
    let p = characters_text(m, frame.as_slice());
    print_text(rt, p.text);
    p.after
}

// The calls of a line.
#[tactic(auto, unfolding(crate::specs::Scripts::line_calls, model::specs::Calls::run, model::specs::Calls::step))]
fn play_calls(rt: &impl Print, m: Module, line: Line) -> Module
    ensures { result ≡ run m (line_calls (line_parsed line)) }
{
    match line {
        Line::Empty => m,
        Line::Samples { bits, times } => play_samples(rt, m, bits, times),
        Line::Toggles {
            first,
            second,
            times,
        } => play_toggles(rt, m, first, second, times),
        Line::Temperature(tenths) => play_temperature(m, true, tenths),
        Line::Fault => play_temperature(m, false, 0),
        Line::Spinel(frame) => play_frame(rt, m, Port::Spinel, frame),
        Line::Modbus(frame) => play_frame(rt, m, Port::Modbus, frame),
        Line::Text(frame) => play_text(rt, m, frame),
    }
}

// One line of a script. Of a wrong one its number and what is wrong are printed.
fn play_line(rt: &impl Print, m: Module, number: u64, line: &[u8]) -> Module
    ensures { result ≡ run m (line_calls (parsed_line line.now)) }
{
    match script::parse(line) {
        Ok(line) => play_calls(rt, m, line),
        Err(reason) => {
            let _ = println!(rt; "line {number}: {reason}");
            m
        }
    }
}

// The first line, and what stands behind its line feed.
fn first_line(s: &[u8]) -> (&[u8], &[u8])
    ensures calls { lines_calls (lines [] s.now) ≡ line_calls (parsed_line result.0.now) ++ lines_calls (lines [] result.1.now) }
    ensures shorter { 0 < length s.now → length result.1.now < length s.now }
{
    match s.iter().position(|b| *b == b'\n') {
        Some(end) => (&s[..end], &s[end + 1..]),
        None => (s, &[]),
    }
}

// Plays all lines of a script on a fresh module, and returns the module after them.
pub fn play(rt: &impl Print, input: &[u8]) -> Module
    ensures { result ≡ run fresh_module (script_calls input.now) }
{
    let mut after = iomodule::fresh();
    let mut number: u64 = 0;
    // A `for` over `input.split(..)` gets no proof beside `rt`.
    let mut rest = input;
    while !rest.is_empty() {
        let (line, behind) = first_line(rest);
        number = number.saturating_add(1);
        after = play_line(rt, after, number, line);
        rest = behind;
    }
    after
}

// Reads until the buffer is full, the input ends or a read fails, and returns how many bytes were read.
fn read_full(rt: &impl Input, buf: &mut [u8]) -> usize
    ensures { result ≤ length buf.new }
{
    let mut reader = rt.reader();
    let mut done = 0;
    // A `while`: a read may give fewer bytes than were asked for, so no count of reads is known before.
    while done < buf.len() {
        let n = reader.read(&mut buf[done..]).unwrap_or(0);
        if n == 0 {
            break;
        }
        done += n;
    }
    done
}

// Plays the script that stands on standard input; one of more than 262,144 bytes is refused whole. What is read and printed has no contract.
pub fn play_input(rt: &(impl Input + Print)) {
    let mut space = [0u8; 262145];
    let n = read_full(rt, &mut space);
    if n == 262145 {
        let _ = rt.write_all(b"script is longer than 262144 bytes; nothing was played\n");
        return;
    }
    play(rt, &space[..n]);
}
