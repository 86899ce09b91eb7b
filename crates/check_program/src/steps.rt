//! The steps of a run, told as they begin.
use check_words::BatchRequest;
use std::io::Write;
use std::time::Instant;

/// When the run began, if its steps are told and there is a clock.
#[derive(Clone, Copy)]
pub(crate) struct Steps {
    start: Option<Instant>,
}

impl Steps {
    pub(crate) fn of(rt: &HostRuntime, request: Option<BatchRequest<'_>>) -> Steps {
        let start = match request {
            Some(request) if request.progress => Instant::now(rt).ok(),
            _ => None,
        };
        Steps { start }
    }

    /// Writes a step with the seconds since the start to the standard error. What cannot be written is
    /// left out.
    pub(crate) fn tell(self, rt: &HostRuntime, step: &str) {
        let Some(start) = self.start else {
            return;
        };
        let Ok(passed) = start.elapsed(rt) else {
            return;
        };
        let (seconds, thousandths) = (passed.as_secs(), passed.subsec_millis());
        let line = format!(in rt.alloc(); "lookup-check: {seconds}.{thousandths:03} s: {step}\n");
        if let Ok(line) = line {
            let _ = rt.stderr().write_all(line.as_bytes());
        }
    }
}
