//! The report of a job that is over, which is shared once it is asked for.

ghost use Rattle.std.specs.Prelude.{◌≡◌, IfOk, IfErr, MatchResult};
ghost use Rattle.accounts.specs.Reports.{report_there};

use credit_book::Report;
use refusal::NoMemory;
use std::alloc::Global;
use std::marker::Model;
use std::mem;
use std::sync::Arc;

/// A report that others hold too, and that nobody changes. Contracts see it as the report.
#[derive(Drop)]
pub struct SharedReport {
    report: Arc<Report>,
}

impl Model for SharedReport {
    ghost use Rattle.std.specs.Arc.{arc_value};
    ghost use Rattle.credit_book.specs.declared.book.Report.{Report};

    ghost Value = { Report };

    ghost view = { λ s. arc_value s.report };
}

impl SharedReport {
    ghost use Rattle.std.specs.Prelude.{◌≡◌, IfOk};

    /// The report, in its place.
    pub fn get(&self) -> &Report
        ensures { result.now ≡ self.now }
    {
        &self.report
    }

    // The same report for one holder more, without a copy of its bytes.
    fn another(&self) -> Result<SharedReport, NoMemory>
        ensures { IfOk result (λ report. report ≡ self.now) }
    {
        let report = Arc::try_clone(&self.report)?;
        Ok(SharedReport { report })
    }
}

// Where a report lies.
#[derive(Drop)]
enum ReportPlace {
    Own(Report),
    Shared(SharedReport),
}

/// The report of a job that is over. It lies in its own place until it is shared for the first time.
/// Contracts see it as the report.
#[derive(Drop)]
pub struct KeptReport {
    place: ReportPlace,
}

impl Model for KeptReport {
    ghost use Rattle.credit_book.specs.declared.book.Report.{Report};

    ghost Value = { Report };

    ghost use Rattle.accounts.specs.Reports.{report_there};

    ghost view = { λ k. report_there k.place };
}

// A report without bytes and tasks.
fn empty_report(alloc: Global) -> Report {
    Report {
        spent: 0,
        returned: 0,
        buffer: Vec::new(alloc),
        tasks: Vec::new(alloc),
    }
}

// Makes a report one that others can hold, or gives it back where there is no memory.
fn into_shared(alloc: Global, place: ReportPlace) -> Result<SharedReport, Report>
    ensures shared { IfOk result (λ report. report ≡ report_there place) }
    ensures given_back { IfErr result (λ report. report ≡ report_there place) }
{
    let report = match place {
        ReportPlace::Own(report) => report,
        ReportPlace::Shared(report) => return Ok(report),
    };
    match Arc::new(alloc, report) {
        Ok(report) => Ok(SharedReport { report }),
        Err(failed) => Err(failed.value),
    }
}

impl KeptReport {
    ghost use Rattle.std.specs.Prelude.{◌≡◌, IfOk};

    /// A report that nobody shares yet.
    pub fn new(report: Report) -> KeptReport
        ensures { result ≡ report }
    {
        KeptReport {
            place: ReportPlace::Own(report),
        }
    }

    /// The report, in its place.
    pub fn get(&self) -> &Report
        ensures { result.now ≡ self.now }
    {
        match &self.place {
            ReportPlace::Own(report) => report,
            ReportPlace::Shared(report) => report.get(),
        }
    }

    /// The report for one holder more, without a copy of its bytes. 99 where there was no memory.
    pub fn share(&mut self, alloc: Global) -> Result<SharedReport, NoMemory>
        ensures shared { IfOk result (λ report. report ≡ self.old) }
        ensures same { self.new ≡ self.old }
    {
        let moved = mem::replace(&mut self.place, ReportPlace::Own(empty_report(alloc)));
        match into_shared(alloc, moved) {
            Ok(report) => {
                let another = report.another();
                self.place = ReportPlace::Shared(report);
                another
            }
            Err(report) => {
                self.place = ReportPlace::Own(report);
                Err(NoMemory)
            }
        }
    }
}
