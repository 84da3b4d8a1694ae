// A leaf that is evicted and comes back from its image and what moved, and what keeps a leaf from it.
ghost use Rattle.leaf_rows.specs.Rows.{AreFit};
ghost use Rattle.reconcile.specs.Capture.{ChainsFit};
ghost use Rattle.evict_step.specs.Backs.{AllFit};

use catalog::Catalog;
use device_layout::{Addr, Link};
use engine::{Called, Local};
use evict_step::{CutOut, Made, Stays, bring_back, cut_out};
use item::{Format, Formats, Item};
use leaf_frame::LeafFrame;
use row_page::Leaf;
use stamp::Name;
use std::alloc::Global;
use std::process::Abort;
use tree_dir::Dir;
use wt_calls::{Demand, SessionCall, SystemCall};
use wt_code::Answer;

const BYTES: Formats = Formats {
    key: Format::U,
    value: Format::U,
};

const COMMIT: SessionCall = SessionCall::Commit {
    commit: None,
    durable: None,
};

// What leads to the block of the leaf.
const LINK: Link = Link {
    addr: Addr {
        offset: 8_192,
        size: 4_096,
        sum: 0,
    },
    greatest: Name { run: 1, id: 1 },
    durable: 0,
};

fn item(rt: &impl Abort, alloc: Global, bytes: &[u8]) -> Item {
    Item::new(Vec::from_slice(alloc, bytes).expect(rt, "there is memory"))
}

#[tactic(auto, using(crate::proofs::Bases::none_owned, crate::proofs::Bases::unset_fit))]
fn engine_on_nothing(rt: &impl Abort, alloc: Global) -> Local {
    let tables = Catalog::new(alloc);
    let opened = Local::open(alloc, 1, 0, 0, tables, Dir::new(alloc));
    opened.expect(rt, "there is memory")
}

// Makes the table `t`.
fn create(rt: &impl Abort, alloc: Global, engine: &mut Local) {
    let create = SystemCall::Create {
        table: item(rt, alloc, b"t"),
        formats: BYTES,
    };
    // That there is an actor of the system.
    let _actors = engine.actors();
    let _made = engine.call_system(alloc, 0, create);
}

// An engine on nothing, with the table `t`, which is empty, and two sessions.
fn engine(rt: &impl Abort, alloc: Global) -> Local {
    let mut engine = engine_on_nothing(rt, alloc);
    create(rt, alloc, &mut engine);
    for _ in 0..2u32 {
        assert!(rt; engine.open_session(alloc).is_ok());
    }
    engine
}

// Whether a call has ended, and not with a refusal.
fn is_done(called: &Called) -> bool {
    match called {
        Called::Ended(Answer::Refused(_)) | Called::Waits(_) => false,
        Called::Ended(_) => true,
    }
}

// A whole call of a session that is open.
fn ask(rt: &impl Abort, alloc: Global, engine: &mut Local, session: u32, call: SessionCall) {
    assert!(rt; session < engine.sessions());
    assert!(rt; is_done(&engine.call(alloc, session, call)));
}

// Session 1 begins.
fn begin_reader(rt: &impl Abort, alloc: Global, engine: &mut Local) {
    ask(rt, alloc, engine, 1, SessionCall::Begin(None));
}

fn put_call(rt: &impl Abort, alloc: Global, value: &[u8]) -> SessionCall {
    SessionCall::Put {
        table: item(rt, alloc, b"t"),
        key: item(rt, alloc, b"k"),
        value: item(rt, alloc, value),
        demand: Demand::Anything,
    }
}

// Session 0 begins, and puts this value of `k`.
fn begin_put(rt: &impl Abort, alloc: Global, engine: &mut Local, value: &[u8]) {
    ask(rt, alloc, engine, 0, SessionCall::Begin(None));
    ask(rt, alloc, engine, 0, put_call(rt, alloc, value));
}

fn commit(rt: &impl Abort, alloc: Global, engine: &mut Local) {
    ask(rt, alloc, engine, 0, COMMIT);
}

// The same in a transaction that is committed.
fn put(rt: &impl Abort, alloc: Global, engine: &mut Local, value: &[u8]) {
    begin_put(rt, alloc, engine, value);
    commit(rt, alloc, engine);
}

// Cursor 0 of session 1 comes to `k`.
fn seek(rt: &impl Abort, alloc: Global, engine: &mut Local) {
    let seek = SessionCall::Seek {
        cursor: 0,
        table: item(rt, alloc, b"t"),
        key: item(rt, alloc, b"k"),
    };
    ask(rt, alloc, engine, 1, seek);
}

// Why the leaf in the first frame stays, if it does.
fn stays(rt: &impl Abort, alloc: Global, engine: &Local) -> Option<Stays> {
    let leaf = engine.id_in(0).expect(rt, "a leaf");
    match cut_out(alloc, engine, None, leaf) {
        Ok(CutOut::Stays(why)) => Some(why),
        _ => None,
    }
}

// What it is cut into: its images, and what moves to the history.
fn cut(rt: &impl Abort, alloc: Global, engine: &Local) -> Made
    ensures { AllFit result.moved.items }
{
    let leaf = engine.id_in(0).expect(rt, "a leaf");
    match cut_out(alloc, engine, None, leaf) {
        Ok(CutOut::Images(made)) => made,
        _ => panic!(rt; "it is not cut"),
    }
}

// The leaf of this block.
fn page(rt: &impl Abort, alloc: Global, block: Vec<u8>) -> Leaf
    ensures { AreFit result }
{
    match Leaf::of_block(alloc, block) {
        Ok(Some(leaf)) => leaf,
        _ => panic!(rt; "no leaf"),
    }
}

// The leaf that comes back of what it was cut into.
fn back(rt: &impl Abort, alloc: Global, made: Made) -> LeafFrame
    requires { AllFit made.moved.items }
    ensures { ChainsFit result.chains }
{
    let mut images = made.images;
    let image = images.pop().expect(rt, "an image");
    let read = LeafFrame::of_page(alloc, page(rt, alloc, image.block));
    match bring_back(alloc, read, made.moved) {
        Ok(leaf) => leaf,
        Err(_) => panic!(rt; "there is memory"),
    }
}

// Session 1 reads `k`, whose leaf comes into a frame so where it waits for it.
fn read_from(rt: &impl Abort, alloc: Global, engine: &mut Local, leaf: LeafFrame) -> Called
    requires { ChainsFit leaf.chains }
{
    assert!(rt; engine.sessions() > 1);
    match engine.get(alloc, 1, b"t", b"k") {
        Called::Ended(_) => panic!(rt; "it waits for no leaf"),
        Called::Waits(id) => {
            engine.fill(id, leaf).expect(rt, "there is memory");
            engine.resume(alloc, 1)
        }
    }
}

// Whether a call gave this value.
fn is_value(called: &Called, wanted: &[u8]) -> bool {
    match called {
        Called::Ended(Answer::Value(value)) => value.as_bytes() == wanted,
        _ => false,
    }
}

// Whether the leaf in the first frame is evicted.
fn evicts(rt: &impl Abort, engine: &mut Local) -> bool {
    match engine.id_in(0) {
        None => false,
        Some(leaf) => engine.evict(leaf, LINK).expect(rt, "there is memory"),
    }
}

#[test]
fn an_evicted_leaf_is_read_from_its_image(rt: HostRuntime) {
    let alloc = rt.alloc();
    let mut engine = engine(&rt, alloc);
    put(&rt, alloc, &mut engine, b"new");
    let leaf = back(&rt, alloc, cut(&rt, alloc, &engine));
    assert!(rt; evicts(&rt, &mut engine));
    assert!(rt; !evicts(&rt, &mut engine));
    begin_reader(&rt, alloc, &mut engine);
    let read = read_from(&rt, alloc, &mut engine, leaf);
    assert!(rt; is_value(&read, b"new"));
}

// What session 0 has written keeps the leaf until it is committed.
fn check_written(rt: &impl Abort, alloc: Global, engine: &mut Local) {
    begin_put(rt, alloc, engine, b"old");
    assert!(rt; stays(rt, alloc, engine) == Some(Stays::Written(0)));
    commit(rt, alloc, engine);
}

// A cursor of session 1 keeps it until its transaction ends.
fn check_pinned(rt: &impl Abort, alloc: Global, engine: &mut Local) {
    seek(rt, alloc, engine);
    assert!(rt; matches!(stays(rt, alloc, engine), Some(Stays::Pinned(5..10))));
    assert!(rt; !evicts(rt, engine));
    ask(rt, alloc, engine, 1, SessionCall::Rollback);
}

#[test]
fn a_leaf_stays_while_it_is_wanted(rt: HostRuntime) {
    let alloc = rt.alloc();
    let mut engine = engine(&rt, alloc);
    check_written(&rt, alloc, &mut engine);
    begin_reader(&rt, alloc, &mut engine);
    put(&rt, alloc, &mut engine, b"new");
    check_pinned(&rt, alloc, &mut engine);
    assert!(rt; evicts(&rt, &mut engine));
}

// The leaf that comes back, with one version that moved.
fn back_with_one(rt: &impl Abort, alloc: Global, engine: &Local) -> LeafFrame
    ensures { ChainsFit result.chains }
{
    let made = cut(rt, alloc, engine);
    assert!(rt; made.moved.len() == 1);
    back(rt, alloc, made)
}

#[test]
fn an_older_version_comes_back_with_its_leaf(rt: HostRuntime) {
    let alloc = rt.alloc();
    let mut engine = engine(&rt, alloc);
    put(&rt, alloc, &mut engine, b"old");
    begin_reader(&rt, alloc, &mut engine);
    put(&rt, alloc, &mut engine, b"new");
    let leaf = back_with_one(&rt, alloc, &engine);
    assert!(rt; evicts(&rt, &mut engine));
    let read = read_from(&rt, alloc, &mut engine, leaf);
    assert!(rt; is_value(&read, b"old"));
}
