// 01, "Known nets": replays the file `record` against the file `plan`, and writes one line.
#![tactic(auto)]

use std::io;

// As many bytes as a plan and a record may have, and one more: enough to see that one is too long.
const PLAN_ROOM: usize = field::PLAN_LIMIT + 1;

const RECORD_ROOM: usize = field::RECORD_LIMIT + 1;

// "`finished K`, `unfinished K` or `refused N at O after K`". A write that fails is passed over.
fn tell(rt: &impl Print, plan: &[u8], record: &[u8]) {
    let mut marking = [0; field::PLACE_LIMIT];
    let _ = match replay::replay(plan, record, &mut marking) {
        Ok(ran) => println!(rt; "{ran}"),
        Err(stopped) => println!(rt; "{stopped}"),
    };
}

fn replay_files(rt: &HostRuntime) -> io::Result<()> {
    let mut plan = [0; PLAN_ROOM];
    let mut record = [0; RECORD_ROOM];
    let n = console::read_file(rt, b"plan", &mut plan)?;
    let m = console::read_file(rt, b"record", &mut record)?;
    tell(rt, &plan[..n], &record[..m]);
    Ok(())
}

fn main(rt: HostRuntime) {
    if replay_files(&rt).is_err() {
        let _ = println!(rt; "no file");
    }
}
