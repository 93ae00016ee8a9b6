// The commands over objects in memory.
use std::alloc::Global;
use ug_links::MemLink;
use ug_sysfs::SimKernel;
use ug_tool::{run_replay, run_tool};
use ug_types::{MemSink, MemSource, NoMemory};

/// The words of a command, what it reads, and where it writes.
#[derive(Drop)]
pub struct Call<'a> {
    pub words: Vec<&'a str>,
    pub input: MemSource,
    pub out: MemSink,
}

impl Call<'_> {
    /// A script, none of whose calls fails.
    pub fn of_script(alloc: Global, input: Vec<u8>) -> Result<Call<'static>, NoMemory> {
        let mut words = Vec::new(alloc);
        words.push("replay")?;
        Ok(Call {
            words,
            input: MemSource::new(input, Vec::new(alloc)),
            out: MemSink::new(alloc, Vec::new(alloc)),
        })
    }
}

fn no_link(alloc: Global) -> MemLink {
    let coming = MemSource::new(Vec::new(alloc), Vec::new(alloc));
    MemLink::new(alloc, false, coming, MemSink::new(alloc, Vec::new(alloc)))
}

/// The status of a script on a new kernel, which is handed out too.
pub fn replay(alloc: Global, call: &mut Call) -> (u8, SimKernel) {
    let mut kernel = SimKernel::new(alloc);
    let status = run_replay(
        alloc,
        &call.words,
        &mut call.input,
        &mut call.out,
        &mut kernel,
    );
    (status, kernel)
}

/// The status of a command that reads its input and asks nobody.
pub fn tool(alloc: Global, call: &mut Call) -> u8 {
    let mut link = no_link(alloc);
    run_tool(
        alloc,
        &call.words,
        &mut call.input,
        &mut call.out,
        &mut link,
    )
}

/// What a command that asks the daemon wrote and sent, and its status.
#[derive(Drop)]
pub struct Asked {
    pub status: u8,
    pub out: MemSink,
    pub link: MemLink,
}

/// A command that asks the daemon, over a link that gives the input, or one that can't be dialled.
pub fn ask(alloc: Global, call: Call, reachable: bool) -> Asked {
    let Call {
        words,
        input: coming,
        mut out,
    } = call;
    let mut input = MemSource::new(Vec::new(alloc), Vec::new(alloc));
    let mut link = MemLink::new(
        alloc,
        reachable,
        coming,
        MemSink::new(alloc, Vec::new(alloc)),
    );
    let status = run_tool(alloc, &words, &mut input, &mut out, &mut link);
    Asked { status, out, link }
}
