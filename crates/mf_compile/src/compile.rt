//! The passes, one after another, over one job.

ghost use Rattle.std.specs.Prelude.{◌≡◌};
ghost use Rattle.mf_edge.specs.Spill.{IsNameOf};
ghost use Rattle.job_words.specs.Shown.{settings_of};
ghost use Rattle.mf_compile.specs.Jobs.{IsReady, HasRooms};
ghost use Rattle.mf_compile.specs.Runs.{moment, IsCompiled};

use crate::fault::Fault;
use crate::gather::gather;
use crate::job::Job;
use crate::lay_out::lay_out;
use job_words::settings::Settings;
use map_model::report::Report;
use mercator_rows::rows::Rows;
use mf_base::out_buf::OutBuf;
use mf_edge::{Block, Sink, Source, Spill, Steps};
use mf_layout::emit::emit;
use mf_rows::desk::Desk;
use pbf_block::strings::Strings;
use spill_parts::Page;
use std::sync::ledger::Ledger;

/// Makes the map of an input, and tells its report. After every answer the job is fit for a next call, which starts the
/// store anew.
pub fn compile<S: Source, K: Sink, P: Spill, L: Ledger>(
    job: &mut Job,
    src: &mut S,
    spill: &mut P,
    out: &mut K,
    steps: &mut Steps<L>,
) -> Result<Report, Fault>
    requires name { IsNameOf job.old.folder (P.state spill.old).name }
    ensures compiled { let before = moment (S.state src.old) (K.state out.old) (P.state spill.old) steps.old in
        let after = moment (S.state src.new) (K.state out.new) (P.state spill.new) steps.new in
        IsCompiled job.old before after result }
    ensures same_job { job.new ≡ job.old }
{
    make_map(
        &job.settings,
        &job.rows,
        &mut job.block,
        &mut job.strings,
        &mut job.desks,
        &mut job.page,
        &mut job.head,
        src,
        spill,
        out,
        steps,
    )
}

// The same, over the room of a job.
fn make_map<S: Source, K: Sink, P: Spill, L: Ledger>(
    settings: &Settings,
    rows: &Rows,
    block: &mut Block,
    strings: &mut Strings,
    desks: &mut [Desk],
    page: &mut Page,
    head: &mut OutBuf,
    src: &mut S,
    spill: &mut P,
    out: &mut K,
    steps: &mut Steps<L>,
) -> Result<Report, Fault>
    requires ready { IsReady (settings_of settings.now) }
    requires rooms { HasRooms (settings_of settings.now) desks.old page.old block.old head.old }
    requires name { IsNameOf settings.now.folder.bytes (P.state spill.old).name }
    ensures compiled { let before = moment (S.state src.old) (K.state out.old) (P.state spill.old) steps.old in
        let after = moment (S.state src.new) (K.state out.new) (P.state spill.new) steps.new in
        IsCompiled (settings_of settings.now) before after result }
    ensures rooms { HasRooms (settings_of settings.now) desks.new page.new block.new head.new }
{
    let (found, bounds) = gather(settings, block, strings, src, spill)?;
    let (subs, report) = lay_out(settings, rows, &bounds, found, desks, page, spill, steps)?;
    emit(
        &settings.head,
        &bounds,
        &settings.mapping,
        subs,
        head,
        page,
        spill,
        out,
        steps,
    )?;
    Ok(report)
}
