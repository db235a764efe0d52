// The objects that a call is given, and what the lines do with them.
use crate::shown::{files_text, hex_line, report_text, trace_lines};
use crate::words::words_text;
use case_words::{bytes_in, number_in};
use hotsync_run::{Answer, Ended, Report, run_program};
use hs_folders::{MemFolder, MemSink, MemSource};
use std::alloc::{AllocError, Global};
use std::{io, mem};

#[derive(Drop)]
pub struct Bench {
    alloc: Global,
    now: Option<u32>,
    bytes: Vec<u8>,
    palm: MemFolder,
    desk: MemFolder,
    source: Vec<u8>,
    trace: Vec<u8>,
    failing_source: Vec<u32>,
    failing_trace: Vec<u32>,
    failing_out: Vec<u32>,
}

impl Bench {
    pub fn new(alloc: Global) -> Bench {
        Bench {
            alloc,
            now: None,
            bytes: Vec::new(alloc),
            palm: recording_folder(alloc),
            desk: recording_folder(alloc),
            source: Vec::new(alloc),
            trace: Vec::new(alloc),
            failing_source: Vec::new(alloc),
            failing_trace: Vec::new(alloc),
            failing_out: Vec::new(alloc),
        }
    }

    /// Does what a line asks for, and gives what is to be printed of it.
    pub fn obey(&mut self, line: &str) -> io::Result<String> {
        let (word, rest) = line.split_once(' ').unwrap_or((line, ""));
        match word {
            "case" => {
                *self = Bench::new(self.alloc);
                return Ok(format!(in self.alloc; "{line}\n")?);
            }
            "call" => return Ok(self.call(rest, true)?),
            "print" => return Ok(self.call(rest, false)?),
            "names" => return self.shown(false),
            "files" => return self.shown(true),
            "trace" => return Ok(trace_lines(self.alloc, &self.trace, rest)?),
            "taken" => return Ok(hex_line(self.alloc, &self.trace)?),
            "words" => return Ok(words_text(self.alloc, self.now, rest)?),
            "moments" => return Ok(self.moments()?),
            _ => self.prepare(word, rest)?,
        }
        Ok(String::new(self.alloc))
    }

    // Makes ready what a call is given.
    fn prepare(&mut self, word: &str, rest: &str) -> io::Result<()> {
        match word {
            "zeros" => self.bytes = vec![in self.alloc; 0; number_in(rest) as usize]?,
            "feeds" => self.bytes = vec![in self.alloc; b'\n'; number_in(rest) as usize]?,
            "hex" => self.bytes = bytes_in(self.alloc, rest),
            "lines" => {
                let text = rest.replace(self.alloc, ", ", "\n")?;
                self.bytes = Vec::from_slice(self.alloc, text.as_bytes())?;
                self.bytes.push(b'\n')?;
            }
            "now" => self.now = Some(number_in(rest)),
            "set" => self.set(rest),
            "palm" => self.palm.put(rest, &self.bytes)?,
            "desk" => self.desk.put(rest, &self.bytes)?,
            "source" => self.source = self.bytes.clone()?,
            "many" => self.many(rest)?,
            "fail" => self.fail(rest)?,
            "at" => self.at(rest)?,
            _ => return Err(io::Error::from(io::ErrorKind::InvalidInput)),
        }
        Ok(())
    }

    fn set(&mut self, rest: &str) {
        let (place, hex) = rest.split_once(' ').unwrap_or((rest, ""));
        let bytes = bytes_in(self.alloc, hex);
        let place = number_in(place) as usize;
        for (at, byte) in self.bytes.iter_mut().skip(place).zip(bytes.iter()) {
            *at = *byte;
        }
    }

    // So many files of databases, none of which has a byte.
    fn many(&mut self, rest: &str) -> Result<(), AllocError> {
        let (side, count) = rest.split_once(' ').unwrap_or((rest, ""));
        for place in 0..number_in(count) {
            let number = 1000 + place % 1000;
            let name = format!(in self.alloc; "N{number}.pdb")?;
            if side == "palm" {
                self.palm.put(name.as_str(), b"")?;
            } else {
                self.desk.put(name.as_str(), b"")?;
            }
        }
        Ok(())
    }

    fn fail(&mut self, rest: &str) -> Result<(), AllocError> {
        let (object, call) = rest.split_once(' ').unwrap_or((rest, ""));
        let calls = vec![in self.alloc; number_in(call)]?;
        match object {
            "palm" => self.palm.fail_calls(calls),
            "desk" => self.desk.fail_calls(calls),
            "source" => self.failing_source = calls,
            "trace" => self.failing_trace = calls,
            _ => self.failing_out = calls,
        }
        Ok(())
    }

    // Takes a folder as it was after so many changes.
    fn at(&mut self, rest: &str) -> Result<(), AllocError> {
        let (side, moment) = rest.split_once(' ').unwrap_or((rest, ""));
        let moment = u64::from(number_in(moment));
        if side == "palm" {
            self.palm = copy_at(self.alloc, &self.palm, moment)?;
        } else {
            self.desk = copy_at(self.alloc, &self.desk, moment)?;
        }
        Ok(())
    }

    fn moments(&self) -> Result<String, AllocError> {
        let (palm, desk) = (self.palm.moments(), self.desk.moments());
        format!(in self.alloc; "palm {palm}, desk {desk}\n")
    }

    // Calls with these words, and tells what the session did where that is asked for.
    fn call(&mut self, rest: &str, whole: bool) -> Result<String, AllocError> {
        let alloc = self.alloc;
        let args = args_of(alloc, rest)?;
        let mut source = MemSource::new(alloc, self.source.clone()?);
        source.fail_calls(self.failing_source.clone()?);
        let mut trace = failing_sink(alloc, &self.failing_trace)?;
        let mut out = failing_sink(alloc, &self.failing_out)?;
        let mut err = failing_sink(alloc, &self.failing_out)?;
        let (code, report) = self.over_folders(&args, &mut source, &mut trace, &mut out, &mut err);
        self.trace = Vec::from_slice(alloc, trace.bytes())?;
        let printed = String::from_utf8_lossy(alloc, out.bytes())?;
        let refused = String::from_utf8_lossy(alloc, err.bytes())?;
        let did = if whole {
            report_text(alloc, &report)?
        } else {
            String::new(alloc)
        };
        format!(in alloc; "status {code}\n{printed}{refused}{did}")
    }

    // Calls over both folders, which come back and fail no more.
    fn over_folders(
        &mut self,
        args: &[String],
        source: &mut MemSource,
        trace: &mut MemSink,
        out: &mut MemSink,
        err: &mut MemSink,
    ) -> (u8, Report) {
        let alloc = self.alloc;
        let palm = mem::replace(&mut self.palm, MemFolder::new(alloc));
        let desk = mem::replace(&mut self.desk, MemFolder::new(alloc));
        let Ended { code, answer } = run_program(
            alloc, self.now, args, palm, desk, source, trace, out, err,
        );
        let Answer {
            device,
            desk,
            report,
            ..
        } = answer;
        self.palm = device;
        self.desk = desk;
        self.palm.fail_calls(Vec::new(alloc));
        self.desk.fail_calls(Vec::new(alloc));
        (code, report)
    }

    // The files of both folders.
    fn shown(&mut self, whole: bool) -> io::Result<String> {
        let mut shown = files_text(self.alloc, "palm", &mut self.palm, whole)?;
        let desk = files_text(self.alloc, "desk", &mut self.desk, whole)?;
        shown.push_str(desk.as_str())?;
        Ok(shown)
    }
}

/// The words of a call, behind the program's name. A `-` stands for no word.
pub fn args_of(alloc: Global, rest: &str) -> Result<Vec<String>, AllocError> {
    let mut args = vec![in alloc; String::from_str(alloc, "hotsync")?]?;
    for word in rest.split(' ').filter(|word| *word != "-") {
        args.push(String::from_str(alloc, word)?)?;
    }
    Ok(args)
}

// A sink of which these calls fail.
fn failing_sink(alloc: Global, calls: &Vec<u32>) -> Result<MemSink, AllocError> {
    let mut sink = MemSink::new(alloc);
    sink.fail_calls(calls.clone()?);
    Ok(sink)
}

// An empty folder that records its moments.
fn recording_folder(alloc: Global) -> MemFolder {
    let mut folder = MemFolder::new(alloc);
    folder.keep_moments();
    folder
}

// The folder as it was after so many changes; an empty one where there were fewer.
fn copy_at(alloc: Global, folder: &MemFolder, moment: u64) -> Result<MemFolder, AllocError> {
    let copy = folder.copy_at(alloc, moment)?;
    Ok(copy.unwrap_or(MemFolder::new(alloc)))
}
