// Four frames, and five leaves: of each key `a` to `e` one, whose value is `#`.
use super::{Script, Story, lines_of, outcome, plain, printed_by};
use std::alloc::Global;
use std::process::Abort;

// The letters of the value that stands for `#`: no two such rows have room in one leaf.
const VALUE: usize = 16_383; // letters

// The five keys are set, each in a leaf of its own, and the device is opened with four frames.
const FIVE_LEAVES: (&str, &str) = (
    "s9 begin\ns9 put t a #\ns9 put t b #\ns9 put t c #\ns9 put t d #\ns9 put t e #\ns9 commit\nsys evict t a\nsys ckpt\nsys frames 4\n",
    "ok\nok\nok\nok\nok\nok\nok\nok\nok\nok\n",
);

// Cursors stand on four of them.
const FOUR_CURSORS: (&str, &str) = (
    "s1 begin\ns1 seek c0 t a\ns1 seek c1 t b\ns1 seek c2 t c\ns1 seek c3 t d\n",
    "ok\nok #\nok #\nok #\nok #\n",
);

const STORIES: &[Story<'static>] = &[
    Story {
        shows: "a leaf comes in once one of the cursors is gone that kept each frame",
        rows: &[
            FIVE_LEAVES,
            FOUR_CURSORS,
            ("s1 get t e\n", "-31807 cache full\n"),
            ("s1 reset c0\ns1 get t e\n", "ok\nok #\n"),
        ],
    },
    Story {
        shows: "what is in a frame is read on, and the transaction goes on",
        rows: &[
            FIVE_LEAVES,
            FOUR_CURSORS,
            ("s1 put t e x\n", "-31807 cache full\n"),
            ("s1 remove t e\n", "-31807 cache full\n"),
            ("s1 get t a\ns1 put t a x\n", "ok #\nok\n"),
            ("s1 commit\n", "ok\n"),
            ("s1 begin\ns1 get t a\ns1 get t e\n", "ok\nok x\nok #\n"),
        ],
    },
    Story {
        shows: "a cursor does not go on to a leaf for which there is no frame, and stays",
        rows: &[
            FIVE_LEAVES,
            FOUR_CURSORS,
            ("s1 next c3 t\n", "-31807 cache full\n"),
            ("s1 reset c0\ns1 next c3 t\n", "ok\nok e #\n"),
        ],
    },
    Story {
        shows: "a call that goes by steps is told so, or has its leaf where a frame was left since",
        rows: &[
            FIVE_LEAVES,
            FOUR_CURSORS,
            (
                "s2 begin\ns2! get t e\ns2..\n",
                "ok\nstarted\n-31807 cache full\n",
            ),
            ("s2! get t e\ns2.\n", "started\nmore\n"),
            ("s1 reset c0\ns2..\n", "ok\nok #\n"),
        ],
    },
    Story {
        shows: "an update that has not ended keeps its frame",
        rows: &[
            FIVE_LEAVES,
            (
                "s1 begin\ns1 put t a x\ns1 put t b x\ns1 put t c x\ns1 put t d x\n",
                "ok\nok\nok\nok\nok\n",
            ),
            ("s1 get t e\n", "-31807 cache full\n"),
            ("s2 begin\ns2 get t e\n", "ok\n-31807 cache full\n"),
            ("s1 commit\ns2 get t e\n", "ok\nok #\n"),
            ("s2 get t a\n", "ok #\n"),
            ("s3 begin\ns3 get t a\ns3 get t b\n", "ok\nok x\nok x\n"),
            ("s3 get t c\ns3 get t d\n", "ok x\nok x\n"),
            ("s3 get t e\n", "ok #\n"),
        ],
    },
    Story {
        shows: "a changed leaf that may go is written out for another",
        rows: &[
            FIVE_LEAVES,
            (
                "s1 begin\ns1 seek c0 t a\ns1 seek c1 t b\ns1 seek c2 t c\n",
                "ok\nok #\nok #\nok #\n",
            ),
            ("s2 begin\ns2 put t d x\ns2 commit\n", "ok\nok\nok\n"),
            ("s1 seek c3 t e\n", "ok #\n"),
            ("s2 begin\ns2 get t d\n", "ok\n-31807 cache full\n"),
            ("s1 reset c2\ns2 get t d\n", "ok\nok x\n"),
        ],
    },
    Story {
        shows: "with five frames there is one for each leaf",
        rows: &[
            FIVE_LEAVES,
            ("sys frames 5\n", "ok\n"),
            FOUR_CURSORS,
            ("s1 get t e\n", "ok #\n"),
        ],
    },
];

fn value_of(rt: &impl Abort, alloc: Global) -> String {
    let mut value = String::new(alloc);
    for _ in 0..VALUE {
        value.push('p').expect(rt, "there is memory");
    }
    value
}

fn push_letter(rt: &impl Abort, text: &mut String, letter: char, value: &str) {
    let pushed = match letter {
        '#' => text.push_str(value),
        _ => text.push(letter),
    };
    pushed.expect(rt, "there is memory");
}

// A text, with the value in place of each `#`.
fn with_values(rt: &impl Abort, alloc: Global, marked: &str) -> String {
    let value = value_of(rt, alloc);
    let mut text = String::new(alloc);
    for letter in marked.chars() {
        push_letter(rt, &mut text, letter, value.as_str());
    }
    text
}

fn roomy(text: &str) -> Script<'_> {
    Script {
        room: 1 << 22,
        ..plain(text)
    }
}

fn comes_out(rt: &impl Abort, alloc: Global, story: &Story<'_>) -> bool {
    let lines = lines_of(rt, alloc, story);
    let text = with_values(rt, alloc, lines.as_str());
    let told = outcome(rt, alloc, roomy(text.as_str()));
    let marked = printed_by(rt, alloc, story);
    let wanted = with_values(rt, alloc, marked.as_str());
    told.as_str() == wanted.as_str()
}

#[test]
fn a_call_is_refused_where_each_frame_is_kept(rt: HostRuntime) {
    let alloc = rt.alloc();
    for story in STORIES {
        let shows = story.shows;
        assert!(rt; comes_out(&rt, alloc, story), "{shows}");
    }
}
