//! Cases of ss_outside. The reads and writes that are to fail are told by their numbers, counted from 1:
//! - `source [FAILING ..], [PIECE ..], N` is read N times, each time into a new buffer of four bytes; so is
//!   `sure-source [PIECE ..], N`,
//!   which never fails, and `standard-source TEXT, N`, which stands over a reader.
//! - `sink ROOM, [FAILING ..], [STEP ..]` and `sure-sink ROOM, [STEP ..]` tell after each step what was written, `write
//!   TEXT` by one
//!   write and `all TEXT` whole; `standard-sink TEXT` tells what a writer gets.
//! - `clock [READING ..], N` and `count-clock FIRST, N` are read N times; `system-clock now` tells whether its reading
//!   can be one.

use crate::reading::{add, number_in, numbers_in, pieces_in, quoted, text_in, texts_in, values};
use anyhow::bail;
use serde_json::Value;
use ss_outside::{
    Clock, CountClock, Faults, MemClock, MemSink, MemSource, Sink, SinkUnder, Source, StdSink,
    StdSource, SureSink, SureSource, SystemClock, write_all,
};
use std::alloc::Global;

/// How many bytes a read into a new buffer gives, and that buffer.
fn told_read<S: Source>(alloc: Global, source: &mut S) -> anyhow::Result<String> {
    let mut buffer = [0u8; 4];
    match source.read(&mut buffer) {
        Ok(count) => {
            let buffer = quoted(alloc, buffer.as_slice())?;
            Ok(format!(in alloc; "{count} {buffer}")?)
        }
        Err(_) => Ok(String::from_str(alloc, "fault")?),
    }
}

fn told_reads<S: Source>(alloc: Global, source: &mut S, times: u64) -> anyhow::Result<String> {
    let mut line = String::new(alloc);
    for _ in 0..times {
        add(&mut line, ", ", told_read(alloc, source)?.as_str())?;
    }
    Ok(line)
}

fn source(alloc: Global, values: &Value) -> anyhow::Result<String> {
    let failing = numbers_in(alloc, values, 0)?;
    let mut source = MemSource::new(pieces_in(alloc, values, 1)?, failing);
    told_reads(alloc, &mut source, number_in(values, 2)?)
}

fn sure_source(alloc: Global, values: &Value) -> anyhow::Result<String> {
    let mut source = SureSource::new(pieces_in(alloc, values, 0)?);
    told_reads(alloc, &mut source, number_in(values, 1)?)
}

fn standard_source(alloc: Global, values: &Value) -> anyhow::Result<String> {
    let mut source = StdSource::new(text_in(values, 0)?.as_bytes());
    told_reads(alloc, &mut source, number_in(values, 1)?)
}

/// What a step on a sink answers.
fn step<S: Sink>(alloc: Global, sink: &mut S, step: &str) -> anyhow::Result<String> {
    let answer = match step.split_once(' ') {
        Some(("write", text)) => match sink.write(text.as_bytes()) {
            Ok(count) => return Ok(count.to_string(alloc)?),
            Err(_) => "fault",
        },
        Some(("all", text)) => match write_all(sink, text.as_bytes()) {
            Ok(()) => "whole",
            Err(_) => "fault",
        },
        _ => bail!("no step: {step}"),
    };
    Ok(String::from_str(alloc, answer)?)
}

/// What was written, where it is told.
fn written<F: Faults + Drop>(alloc: Global, sink: &SinkUnder<F>) -> anyhow::Result<String> {
    match sink.written() {
        Some(bytes) => quoted(alloc, bytes),
        None => Ok(String::from_str(alloc, "untold")?),
    }
}

/// What each step answers, and what is told then.
fn told_steps<F: Faults + Drop>(
    alloc: Global,
    sink: &mut SinkUnder<F>,
    steps: &[&str],
) -> anyhow::Result<String> {
    let mut line = String::new(alloc);
    for text in steps {
        let answer = step(alloc, sink, text)?;
        let written = written(alloc, sink)?;
        add(
            &mut line,
            ", ",
            format!(in alloc; "{answer} {written}")?.as_str(),
        )?;
    }
    Ok(line)
}

fn room_in(values: &Value) -> anyhow::Result<usize> {
    Ok(usize::try_from(number_in(values, 0)?)?)
}

fn sink(alloc: Global, values: &Value) -> anyhow::Result<String> {
    let failing = numbers_in(alloc, values, 1)?;
    let mut sink = MemSink::new(alloc, room_in(values)?, failing)?;
    told_steps(alloc, &mut sink, texts_in(alloc, values, 2)?.as_slice())
}

fn sure_sink(alloc: Global, values: &Value) -> anyhow::Result<String> {
    let mut sink = SureSink::new(alloc, room_in(values)?)?;
    told_steps(alloc, &mut sink, texts_in(alloc, values, 1)?.as_slice())
}

fn standard_sink(alloc: Global, values: &Value) -> anyhow::Result<String> {
    let mut bytes = Vec::new(alloc);
    let mut sink = StdSink::new(&mut bytes);
    let answer = match write_all(&mut sink, text_in(values, 0)?.as_bytes()) {
        Ok(()) => "whole",
        Err(_) => "fault",
    };
    drop(sink);
    let written = quoted(alloc, bytes.as_slice())?;
    Ok(format!(in alloc; "{answer} {written}")?)
}

fn told_readings<C: Clock>(alloc: Global, clock: &mut C, times: u64) -> anyhow::Result<String> {
    let mut line = String::new(alloc);
    for _ in 0..times {
        add(&mut line, ", ", clock.now().to_string(alloc)?.as_str())?;
    }
    Ok(line)
}

fn clock(alloc: Global, values: &Value) -> anyhow::Result<String> {
    let mut clock = MemClock::new(numbers_in(alloc, values, 0)?);
    told_readings(alloc, &mut clock, number_in(values, 1)?)
}

fn count_clock(alloc: Global, values: &Value) -> anyhow::Result<String> {
    let mut clock = CountClock::new(number_in(values, 0)?);
    told_readings(alloc, &mut clock, number_in(values, 1)?)
}

/// Whether the reading of the system's clock lies between September 2020 and the last stamp, in the year 2286; or else
/// the reading.
pub fn told_system(rt: &HostRuntime) -> anyhow::Result<String> {
    let now = SystemClock::new(rt).now();
    if 160_000_000_000 < now && now < 999_999_999_999 {
        Ok(String::from_str(rt.alloc(), "between 160000000000 and 999999999999")?)
    } else {
        Ok(now.to_string(rt.alloc())?)
    }
}

/// What a case tells.
pub fn outside_line(alloc: Global, kind: &str, text: &str) -> anyhow::Result<String> {
    let values = values(alloc, text)?;
    match kind {
        "source" => source(alloc, &values),
        "sure-source" => sure_source(alloc, &values),
        "standard-source" => standard_source(alloc, &values),
        "sink" => sink(alloc, &values),
        "sure-sink" => sure_sink(alloc, &values),
        "standard-sink" => standard_sink(alloc, &values),
        "clock" => clock(alloc, &values),
        "count-clock" => count_clock(alloc, &values),
        _ => bail!("no kind of case: {kind}"),
    }
}
