//! Texts, records, streams and words. The cases are the worked values of ss_text, ss_outside, ss_record and ss_words,
//! one in each line.

mod outside;
mod records;
mod texts;
mod words;

/// What a case tells: its kind, and what stands behind that.
pub fn case_line(rt: &HostRuntime, kind: &str, text: &str) -> anyhow::Result<String> {
    let alloc = rt.alloc();
    if let Some(line) = texts::text_line(alloc, kind, text)? {
        return Ok(line);
    }
    if let Some(line) = records::record_line(alloc, kind, text)? {
        return Ok(line);
    }
    match kind {
        "words" => words::words_line(alloc, text),
        "system-clock" => outside::told_system(rt),
        _ => outside::outside_line(alloc, kind, text),
    }
}
