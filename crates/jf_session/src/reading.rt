// The commands that read: a question over a stored map, or over a fork's.
ghost use Rattle.std.specs.Prelude.{◌≡◌, Some, false};
ghost use Rattle.jf_hash.specs.Maps.{Batch};
ghost use Rattle.jf_script.specs.Bounds.{IsBoundedQuestion};
ghost use Rattle.jf_script.specs.declared.command.Base.TheVariants as base;
ghost use Rattle.jf_script.specs.declared.command.Command.TheVariants as command;
ghost use Rattle.jf_store.specs.Passes.{IsPassOf};
ghost use Rattle.jf_store.specs.Starts.{Start};
ghost use Rattle.jf_session.specs.Steps.{session_of, IsSoundSession, IsRunningOn, IsObeyed, IsObeyedWith};

use crate::questions::{answer_fork_question, answer_question};
use crate::refusing::refusal_reply;
use crate::session::Session;
use crate::stop::Stop;
use jf_disk::Disk;
use jf_path::Bytes;
use jf_script::{Base, ForkQuestion, Question, Refusal, Reply};
use jf_store::{Pass, Store};
use std::alloc::Global;
use std::sync::Wait;

// Answers a question over the map of the head, for a session with this pass.
fn read_head<D: Disk, H: Wait>(
    pass: &mut Pass<D>,
    over: &mut bool,
    rt: &H,
    alloc: Global,
    store: &Store<D>,
    question: Question,
    block: &mut Bytes,
) -> Result<Reply, Stop>
    requires own { IsPassOf pass.old store.now }
    requires over { over.old ≡ false }
    requires bounded { IsBoundedQuestion question }
    ensures sound { (pending : Batch) → IsSoundSession (session_of pass.old pending over.old) → IsSoundSession (session_of pass.new pending over.new) }
    ensures obeyed { (pending : Batch) → IsObeyedWith store.now.start (session_of pass.old pending over.old) (session_of pass.new pending over.new) (command.Read base.Head question) block.old block.new result }
{
    match pass.look(rt, store) {
        Ok(look) => answer_question(alloc, &look.head, question, block),
        Err(fault) => refusal_reply(fault, over),
    }
}

// Answers a question over the map of a version, for a session with this pass.
fn read_version<D: Disk, H: Wait>(
    pass: &mut Pass<D>,
    over: &mut bool,
    rt: &H,
    alloc: Global,
    store: &Store<D>,
    version: u64,
    question: Question,
    block: &mut Bytes,
) -> Result<Reply, Stop>
    requires own { IsPassOf pass.old store.now }
    requires over { over.old ≡ false }
    requires bounded { IsBoundedQuestion question }
    ensures sound { (pending : Batch) → IsSoundSession (session_of pass.old pending over.old) → IsSoundSession (session_of pass.new pending over.new) }
    ensures obeyed { (pending : Batch) → IsObeyedWith store.now.start (session_of pass.old pending over.old) (session_of pass.new pending over.new) (command.Read (base.Version version) question) block.old block.new result }
{
    match pass.at(rt, store, version) {
        Ok(snapshot) => answer_question(alloc, &snapshot, question, block),
        Err(fault) => refusal_reply(fault, over),
    }
}

// Answers a question over the map that is pinned at a place, for a session with this pass. It waits for nobody.
fn read_place<D: Disk>(
    pass: &Pass<D>,
    alloc: Global,
    place: u64,
    question: Question,
    block: &mut Bytes,
) -> Result<Reply, Stop>
    requires { IsBoundedQuestion question }
    ensures { (start : Start) (pending : Batch) → IsSoundSession (session_of pass.now pending false) → pass.now.start ≡ Some start → IsObeyedWith start (session_of pass.now pending false) (session_of pass.now pending false) (command.Read (base.Place place) question) block.old block.new result }
{
    match pass.pinned_snapshot(place) {
        Some(snapshot) => answer_question(alloc, snapshot, question, block),
        None => Ok(Reply::No(Refusal::NoPin)),
    }
}

// Answers a question over the map of a fork, for a session with this pass.
fn read_tree<D: Disk, H: Wait>(
    pass: &mut Pass<D>,
    over: &mut bool,
    rt: &H,
    alloc: Global,
    store: &Store<D>,
    id: u64,
    question: ForkQuestion,
) -> Result<Reply, Stop>
    requires own { IsPassOf pass.old store.now }
    requires over { over.old ≡ false }
    ensures sound { (pending : Batch) → IsSoundSession (session_of pass.old pending over.old) → IsSoundSession (session_of pass.new pending over.new) }
    ensures obeyed { (pending : Batch) → IsObeyed store.now.start (session_of pass.old pending over.old) (session_of pass.new pending over.new) (command.ReadFork id question) result }
{
    match pass.tree(rt, store, id) {
        Ok(tree) => answer_fork_question(alloc, &tree, question),
        Err(fault) => refusal_reply(fault, over),
    }
}

impl<D: Disk> Session<D> {
    // Answers a question over the stored map that a base names.
    pub(crate) fn read<H: Wait>(
        &mut self,
        rt: &H,
        alloc: Global,
        store: &Store<D>,
        base: Base,
        question: Question,
        block: &mut Bytes,
    ) -> Result<Reply, Stop>
        requires open { IsRunningOn self.old store.now }
        requires bounded { IsBoundedQuestion question }
        ensures { IsObeyedWith store.now.start self.old self.new (command.Read base question) block.old block.new result }
    {
        match base {
            Base::Head => read_head(
                &mut self.pass,
                &mut self.over,
                rt,
                alloc,
                store,
                question,
                block,
            ),
            Base::Version(version) => read_version(
                &mut self.pass,
                &mut self.over,
                rt,
                alloc,
                store,
                version,
                question,
                block,
            ),
            Base::Place(place) => read_place(&self.pass, alloc, place, question, block),
        }
    }

    // Answers a question over the map of a fork.
    pub(crate) fn read_fork<H: Wait>(
        &mut self,
        rt: &H,
        alloc: Global,
        store: &Store<D>,
        id: u64,
        question: ForkQuestion,
    ) -> Result<Reply, Stop>
        requires { IsRunningOn self.old store.now }
        ensures { IsObeyed store.now.start self.old self.new (command.ReadFork id question) result }
    {
        read_tree(
            &mut self.pass,
            &mut self.over,
            rt,
            alloc,
            store,
            id,
            question,
        )
    }
}
