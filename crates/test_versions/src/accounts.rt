// A run as a ledger of accounts makes it: fifty blocks, half of which are committed and half made as forks that land; versions are
// pinned and retired on the way, and the files are written anew.
use jf_disk::MemDisk;
use jf_io::{MemSink, MemSource};
use jf_path::Bytes;
use jf_play::play::{one_word, run_over};
use jf_run::status::{Ended, Status};
use std::alloc::Global;
use std::sync::Wait;
use std::test::Fail;
use std::thread::Threads;

// How many blocks there are, how many accounts, and how many of them a block puts.
const BLOCKS: u32 = 50;

const ACCOUNTS: u32 = 1_000;

const PUTS: u32 = 200;

// The root after each block, by a reference in Python that keeps whole maps, and its `hashlib`.
const ROOTS: &[&str] = &[
    "16e4063adc19941ab8678d72480b347eed211cb0fb4398598eadd615f77ca0fe",
    "43f7f8e8ab5bb65e77c5fd815a3368c379a45c51478edb50edc3d0b02bf86cde",
    "380ec015c6b5467834a8317f61e65b7df108858c4fccacce4b85edf5c5364562",
    "026fc4660054af02f219d78fa46a97685a642d4f86d3769d4ab00563cd1a59ad",
    "2f3010a677978737fc3cb05f59544a48ee059c40a83b0076dbe70ce13668e552",
    "defa7c27aa30591863ef2f979f9a46d8e48b475648e535b0682cbad17e24d307",
    "feb2efb1f2b590cd8e7f5c0f1c80ca4b0583cc82e053008b547cd8113b581b07",
    "28c9aa4b46fc8fc98dfdc91cfb0d4e445d6689ba04c8f23470edf8e8c34f21a9",
    "89cab71648d828892d8bff3c037e22eaa343615b4aca2c1243bbb2f2ed390ac9",
    "07ca66d0dde6e2b7cb3fe31749b06aa843a2343289531741aac0545dc86e55d6",
    "7ff6c0ef925fe0743dda0b8e7e249dab19c9cd0522dbd1d6b866ede35d3424b8",
    "2eddb50fafb7a78faffd376bd52c8b7e83b206e4a47e2dc3bc36d032f0988c0f",
    "b974575e4187c7793498c2cc6ee30104bdf635ec2a124ea4a21300f192006ac7",
    "02eabe078fa7812f275f928e408f09f7ca3d4c7f3c1743c519a11aeac7ff9065",
    "669acb29622e2c9e6de28c53196dd2d4d6b7202aa1225c0246791df03d82dcc5",
    "f0cf97a3ff62c6f94ffc994f44d11c005a6b615d03f49757a0e62dbf2cc8d2bb",
    "efb8313b8cb69abab9613dcadeb7bd9bae423651e8fa8c8868cd8261bdca5a5e",
    "bf3530dcfc08377689f1341eb50e306bcf2ae8df4a604b7d6167261d92ede1fb",
    "cd2988f4c85e19ae5bdc0f1b77e43206bbc21e6c5d0ce7ef0e5103c82b37e834",
    "108b41121d8929ef84cd4fe3b31bf8ec35b9e2330d971b119c1521d1b7e94f56",
    "eb97d67937eb0457aa4b9788933e2a458a33ac45b8a46de098c52d032387e46b",
    "07be9854641ba2522fe008eb46667fbfcd41667d7cb12cbcc5410f6e0ac3e62f",
    "fe5a87c2c3ee962d89b59cff89f80876ae92c896f1b183c9e7a83ae2ccba4837",
    "a34637a384f1221d0790791b0e30d2ecb804bc263bc29e105bc00d04ebc287a6",
    "7bbc56b05093aa80d25e22138f4449d993a407127cb2fec5b352fbda98fd500e",
    "57355b05546efdf593266acef9a9d2ef20a0747213ae79ac7c67e50e9e0b1e1a",
    "3a392df28cef61dba231033a04b53abf20aceff41fa4b9d5722b6b12eee6f532",
    "ef5a4979b0211c6cead9002279fffdba52ef64a1e5aa9f33c03cd3cab89a6dab",
    "156791e3bb1fb49f50fe98445d6cd8c45bfed887f173f683c472a24b15f28cb7",
    "16e2a120c4236447840ff48e399ece90fe5b66380a795e4a4822a6fe6a271027",
    "9b575db8f27de8bab1731c41a4a0ab97b4deb67265f50759e28111e97206fd8e",
    "e939f3055da71fd26b74792280c392527d0a0656fa50532a6ed50fd53781dd56",
    "db52852a655a13a97a55162a9f06cf3b8e1d2de56468b6e8733d31f7e6db7bcd",
    "42fe6b8c13b8dde45d1b0a1d92d4d337fd53826279045e4bc101a524dd8cb269",
    "63db895f24011248d563875886a235ac7549f593f4c91438cda37be3a333f8e8",
    "984ffa7a7c4269cc5edd5bc8f75f63dc0feae2799d618b3b3fe944be8b9a294d",
    "3034e9fff2f919bdee4ef41354cd68e9ae660a3b330c3cbfeafd5ec3e5f8063d",
    "34ab70617632ecfd9baec2268da2ead4b2acd39a32a79b2ac641596837dc1c2d",
    "28d28372f284d144c51fff86b9dba83049a19501dd99b809f4574364533692a0",
    "fd0d3c88b99fd35ef063de4ef16616e0a940992a172f7341582e3a6468671524",
    "68403bacd7c0f6257671e21caf6349c9519691d1d27b87faaf65284f8836a354",
    "240e877bde8961fa13726b035856abbee91dd8739cf13dac15cb9042ddfe7fc5",
    "7e5c10332d94666a898f3e3bbff87e29322de6f184594912aceade271c906e91",
    "57c9d854405b7d7c56ff4c47fe436444dcdc8095f999f8515ea7eb8390812642",
    "7cd372714a2b1b4c740f0e8c7663f797e240e45562f86e13551c34d1abe46094",
    "bac9d1c0a6d4c0a5ebdebaacf1e176d0c4a95569932aa9a8d30fbac9b717f0c0",
    "c3856bfd3e87d38f3b68c70ccc9edde5f87850070720a402a7d825adc9edddf6",
    "f8935b8a4c23a0e44f6bd6f3d99997b4ca3473ca4fdd599604dbdc4b517ae8fb",
    "9b004a26d8087b2dcf25fad3dccfee7878cee80dc4ebb0d4e40b93f3be55658a",
    "88dbb20e0f8de249255879cb6d9ec671530d740b3d58a791d0e94c39d88b7634",
];

// The lines after a block, and the replies to them; the numbers count the entries so far. The nodes kept at the end are counted on
// whole maps too.
struct After {
    block: u32,
    lines: &'static str,
    replies: &'static str,
    entries: u32,
}

const AFTER: &[After] = &[
    After {
        block: 20,
        lines: "pin 20\n",
        replies: "30 ok pin 0\n",
        entries: 0,
    },
    After {
        block: 30,
        lines: "prune 25\n",
        replies: "46 ok prune 25 20\n",
        entries: 1,
    },
    After {
        block: 40,
        lines: "unpin 0\nprune 35\ncompact\n",
        replies: "61 ok unpin 20\n62 ok prune 35 35\n63 ok compact 2\n",
        entries: 2,
    },
    After {
        block: BLOCKS,
        lines: "status\n",
        replies: "78 ok status base 0 floor 35 retired 35 head 50 kept 7365 forks 0 generation 2\n",
        entries: 0,
    },
];

// The script, its replies, and how many entries the lines so far make.
#[derive(Drop)]
struct Run {
    script: Vec<u8>,
    replies: Vec<u8>,
    entries: u32,
}

// Adds a line and its reply.
fn add(run: &mut Run, line: &[u8], reply: &[u8]) -> Result<(), Fail> {
    run.script.extend_from_slice(line)?;
    run.replies.extend_from_slice(reply)?;
    Ok(())
}

// Adds the put of an account: its number in four bytes and sixteen bytes of zero, with a value of sixteen bytes.
fn add_put(alloc: Global, run: &mut Run, block: u32, put: u32) -> Result<(), Fail> {
    let account = block
        .saturating_mul(7)
        .saturating_add(put.saturating_mul(13))
        % ACCOUNTS;
    let value = block.saturating_mul(1_000).saturating_add(put);
    let pending = put.saturating_add(1);
    let line = format!(in alloc; "put {account:08x}{:032x} ={value:032x}\n", 0)?;
    let reply = format!(in alloc; "{} ok pending {pending}\n", run.entries)?;
    add(run, line.as_bytes(), reply.as_bytes())
}

// Adds the lines that land an odd block as a fork, whose number is half of the block's, or commit an even one.
fn add_landing(alloc: Global, run: &mut Run, block: u32, root: &str) -> Result<(), Fail> {
    run.entries = run.entries.saturating_add(1);
    if block % 2 == 0 {
        let reply = format!(in alloc; "{} ok commit {block} {root}\n", run.entries)?;
        return add(run, b"commit\n", reply.as_bytes());
    }
    let fork = block / 2;
    let reply = format!(in alloc; "{} ok fork f{fork} {root}\n", run.entries)?;
    add(run, b"fork head\n", reply.as_bytes())?;
    run.entries = run.entries.saturating_add(1);
    let line = format!(in alloc; "land f{fork}\n")?;
    let reply = format!(in alloc; "{} ok land {block} {root}\n", run.entries)?;
    add(run, line.as_bytes(), reply.as_bytes())
}

// Adds the lines after a block.
fn add_after(run: &mut Run, block: u32) -> Result<(), Fail> {
    for after in AFTER {
        if after.block == block {
            add(run, after.lines.as_bytes(), after.replies.as_bytes())?;
            run.entries = run.entries.saturating_add(after.entries);
        }
    }
    Ok(())
}

// Adds the puts of a block.
fn add_puts(alloc: Global, run: &mut Run, block: u32) -> Result<(), Fail> {
    for put in 0..PUTS {
        add_put(alloc, run, block, put)?;
    }
    Ok(())
}

fn whole_run(alloc: Global) -> Result<Run, Fail> {
    let mut run = Run {
        script: Vec::new(alloc),
        replies: Vec::new(alloc),
        entries: 0,
    };
    for (block, root) in (1..=BLOCKS).zip(ROOTS) {
        add_puts(alloc, &mut run, block)?;
        add_landing(alloc, &mut run, block, root)?;
        add_after(&mut run, block)?;
    }
    Ok(run)
}

// The most bytes that the source gives, and the sink takes, in a call.
const PIECE: usize = 10_000;

fn source_of(alloc: Global, script: &[u8]) -> Result<Box<MemSource>, Fail> {
    let source = MemSource::new(Bytes::copy_of(alloc, script)?, PIECE, Vec::new(alloc));
    Ok(Box::new(alloc, source)?)
}

fn roomy_sink(alloc: Global) -> Result<Box<MemSink>, Fail> {
    let sink = MemSink::new(alloc, PIECE, 400_000, Vec::new(alloc))?;
    Ok(Box::new(alloc, sink)?)
}

fn roomy_disk(alloc: Global) -> Result<Box<MemDisk>, Fail> {
    let empty = || Vec::new(alloc);
    let disk = MemDisk::new(alloc, empty(), empty(), 1_000, 8_000_000, Vec::new(alloc))?;
    Ok(Box::new(alloc, disk)?)
}

// Whether a run ended well with this many entries.
fn has_ended_well(ended: &Ended<MemDisk>, entries: u32) -> bool {
    ended.status == Status::Done && ended.entries.len() == u64::from(entries)
}

// Whether the script over a new store is answered by the replies.
fn is_answered<H: Threads + Wait + Sync>(rt: &H, alloc: Global, run: &Run) -> Result<bool, Fail> {
    let words = one_word(alloc, "run")?;
    let mut source = source_of(alloc, &run.script)?;
    let mut sink = roomy_sink(alloc)?;
    let disk = roomy_disk(alloc)?;
    let ended = run_over(rt, alloc, disk, &words, &mut source, &mut sink)?;
    Ok(has_ended_well(&ended, run.entries) && sink.text() == run.replies.as_slice())
}

#[test]
fn blocks_of_accounts_land_and_are_retired(rt: HostRuntime) -> Result<(), Fail> {
    let alloc = rt.alloc();
    let run = whole_run(alloc)?;
    assert!(rt; is_answered(&rt, alloc, &run)?);
    Ok(())
}
