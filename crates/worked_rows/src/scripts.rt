ghost use Rattle.std.specs.Prelude.{◌≤◌, length};
ghost use Rattle.iv_script.specs.ScriptText.{script_limit};

use iv_base::{MemSink, SinkFault};
use iv_script::{
    AreaCells, End, Event, Export, Outcome, Piece, Plain, Reason, ScriptError, ScriptFault,
    ScriptWhy, fit_script, read_script, write_report,
};
use iv_words::{IntKind, Seq, Word};
use std::alloc::Global;
use std::test::Fail;

fn word(alloc: Global, text: &str) -> Result<Word, Fail> {
    Ok(Word::from_slice(alloc, text.as_bytes())?)
}

fn list<T: Drop, const N: usize>(alloc: Global, items: [T; N]) -> Result<Seq<T>, Fail> {
    Ok(Seq::from_vec(Vec::from_array(alloc, items)?))
}

#[test]
fn reads_calls_and_replies(rt: HostRuntime) {
    let text = b"# first\n\tcall f 255  -01 \r\nreply 3 4\n\ncall g";
    match read_script(rt.alloc(), text) {
        Ok(script) => {
            assert_eq!(rt; (script.calls.len(), script.replies.len()), (2, 1));
            assert_eq!(rt; script.calls[0].values.as_slice(), [255, -1].as_slice());
        }
        Err(_) => assert!(rt; false),
    }
}

#[test]
fn tells_the_first_bad_line(rt: HostRuntime) {
    for (text, line, why) in [
        ("call f\nCall f", 2, ScriptWhy::BadWord),
        ("call \n", 1, ScriptWhy::BadWord),
        ("\rcall f", 1, ScriptWhy::BadWord),
        ("call f 1\ncall f true\nx", 2, ScriptWhy::BadNumber),
        ("call f 1\r\r\n", 1, ScriptWhy::BadNumber),
        ("reply -", 1, ScriptWhy::BadNumber),
    ] {
        let fault = ScriptError::At(ScriptFault { line, why });
        assert_eq!(rt; read_script(rt.alloc(), text.as_bytes()).err(), Some(fault));
    }
}

/// `f` takes two numbers of one byte, and `g` a truth.
fn exports(alloc: Global) -> Result<Seq<Export>, Fail> {
    let byte = Plain::Int(IntKind::U8);
    let f = Export {
        name: word(alloc, "f")?,
        params: list(alloc, [byte, byte])?,
        result: Some(byte),
    };
    let g = Export {
        name: word(alloc, "g")?,
        params: list(alloc, [Plain::Truth])?,
        result: None,
    };
    list(alloc, [f, g])
}

fn misfit(alloc: Global, text: &str, exports: &Seq<Export>) -> Option<ScriptFault>
    requires { length text.now ≤ script_limit }
{
    match read_script(alloc, text.as_bytes()) {
        Ok(script) => fit_script(&script, exports).err(),
        Err(_) => None,
    }
}

#[test]
fn tells_the_first_call_that_does_not_fit(rt: HostRuntime) -> Result<(), Fail> {
    let exports = exports(rt.alloc())?;
    assert_eq!(rt;
        misfit(rt.alloc(), "call f 255 0\ncall g 1", &exports),
        None
    );
    for (text, line, why) in [
        ("call nope", 1, ScriptWhy::NoSuchName),
        ("call f 1", 1, ScriptWhy::BadCount),
        ("call g 1 256", 1, ScriptWhy::BadCount),
        ("reply 9\ncall f 255 256", 2, ScriptWhy::OutOfRange),
        ("call g 2\ncall h", 1, ScriptWhy::OutOfRange),
    ] {
        let fault = ScriptFault { line, why };
        assert_eq!(rt; misfit(rt.alloc(), text, &exports), Some(fault));
    }
    Ok(())
}

const REPORT: &str = "call led 0
call fill 7 [1 -2]
ret go
ret f 255
stop 6
area a 9
area b 3 4
";

fn area<const N: usize>(alloc: Global, name: &str, cells: [i128; N]) -> Result<AreaCells, Fail> {
    let name = word(alloc, name)?;
    Ok(AreaCells {
        name,
        cells: list(alloc, cells)?,
    })
}

fn areas(alloc: Global) -> Result<Seq<AreaCells>, Fail> {
    let a = area(alloc, "a", [9])?;
    let b = area(alloc, "b", [3, 4])?;
    list(alloc, [a, b])
}

fn led(alloc: Global) -> Result<Event, Fail> {
    let name = word(alloc, "led")?;
    Ok(Event::Call(name, list(alloc, [Piece::Value(0)])?))
}

fn fill(alloc: Global) -> Result<Event, Fail> {
    let cells = Piece::Cells(list(alloc, [1, -2])?);
    let arguments = list(alloc, [Piece::Value(7), cells])?;
    Ok(Event::Call(word(alloc, "fill")?, arguments))
}

fn returned(alloc: Global, name: &str, value: Option<i128>) -> Result<Event, Fail> {
    Ok(Event::Ret(word(alloc, name)?, value))
}

fn events(alloc: Global) -> Result<Seq<Event>, Fail> {
    let mut events = Seq::new(alloc);
    events.push(led(alloc)?)?;
    events.push(fill(alloc)?)?;
    events.push(returned(alloc, "go", None)?)?;
    events.push(returned(alloc, "f", Some(255))?)?;
    Ok(events)
}

fn outcome(alloc: Global, end: End) -> Result<Outcome, Fail> {
    let events = events(alloc)?;
    Ok(Outcome {
        events,
        end,
        areas: areas(alloc)?,
    })
}

#[test]
fn writes_a_report(rt: HostRuntime) -> Result<(), Fail> {
    let mut out = MemSink::new(rt.alloc(), 1_000, Seq::new(rt.alloc()))?;
    let outcome = outcome(rt.alloc(), End::Stopped(6))?;
    assert_eq!(rt; write_report(&outcome, &mut out), Ok(()));
    assert_eq!(rt; out.text(), REPORT.as_bytes());
    Ok(())
}

#[test]
fn answers_a_fault(rt: HostRuntime) -> Result<(), Fail> {
    let mut out = MemSink::new(rt.alloc(), 10, Seq::new(rt.alloc()))?;
    let outcome = outcome(rt.alloc(), End::Undefined(Reason::Dead))?;
    assert_eq!(rt; write_report(&outcome, &mut out), Err(SinkFault));
    assert_eq!(rt; out.text(), b"call led 0".as_slice());
    Ok(())
}
