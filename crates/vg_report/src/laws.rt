//! Laws of the texts of reports: each is a function whose contract is the law.
ghost use Rattle.vg_report.specs.RoundTrip.{ReadsBack, ReadsLawful, TextsDiffer};

/// The text of a lawful report is read as that report.
pub fn written_is_read_back()
    ensures { ReadsBack }
{}

/// What is read is a lawful report, and its text is the text that was read. So exactly the texts of lawful reports are read.
pub fn read_is_lawful()
    ensures { ReadsLawful }
{}

/// No two lawful reports have one text.
pub fn texts_differ()
    ensures { TextsDiffer }
{}
