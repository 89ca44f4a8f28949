//! What the definitions of this crate amount to, in other words.
ghost use Rattle.plan_pages.specs.Reading.{FiguresAreTold, RunsAreListed};
ghost use Rattle.plan_pages.specs.Widths.{PagesAreNarrow};

/// No line of a page is wider than 80 columns, but for long names of hosts, figures of a server of more than 15 digits,
/// and a long command that continues. The line of a server's figures takes 95 columns at most.
pub fn pages_are_narrow()
    ensures { PagesAreNarrow }
{}

/// Without its blanks and line breaks a list of runs has each run in order, with commas between.
pub fn runs_are_listed()
    ensures { RunsAreListed }
{}

/// The line of a server's figures tells them: from it one reads which ones the server told, and their values.
pub fn figures_are_told()
    ensures { FiguresAreTold }
{}
