//! Damage to the words of slot 0's two directions, each by itself.
use crate::places::{FIRST_RECORD, Memory, WORD, put_words};
use crate::tally::Tally;

// A direction of slot 0: where its words begin in the record, and how many packets it has.
#[derive(Debug, Clone, Copy)]
struct Direction {
    name: &'static str,
    first_word: u8,
    packets: u8,
}

const DIRECTIONS: [Direction; 2] = [
    Direction {
        name: "forward",
        first_word: 11,
        packets: 3,
    },
    Direction {
        name: "reverse",
        first_word: 24,
        packets: 2,
    },
];

// Names, words of the direction, and what is put there and behind it. The range of lengths is from 54 to 60, as words 55 and 61.
const CHANGES: [(&str, u8, &[u64]); 8] = [
    ("packets 0", 0, &[0]),
    ("octets 0", 1, &[0]),
    ("length range missing", 2, &[0, 0]),
    ("length minimum alone", 3, &[0]),
    ("length maximum alone", 2, &[0]),
    ("length minimum above maximum", 2, &[62]),
    ("length word 4294967296", 3, &[0x1_0000_0000]),
    ("length word 4294967297", 3, &[0x1_0000_0001]),
];

// The flags, whose counts are the words from this one on.
const FIRST_FLAG: u8 = 4;

const FLAGS: [&str; 9] = ["fin", "syn", "rst", "psh", "ack", "urg", "ece", "cwr", "ns"];

pub fn damage(rt: &impl Print, state: &Memory, tally: &mut Tally) {
    for direction in DIRECTIONS {
        direction.damage(rt, state, tally);
    }
}

impl Direction {
    fn damage(&self, rt: &impl Print, state: &Memory, tally: &mut Tally) {
        for (name, word, words) in CHANGES {
            self.judge(rt, state, tally, name, word, words);
        }
        let most = u64::from(self.packets);
        let name = "fin count as packets";
        self.judge(rt, state, tally, name, FIRST_FLAG, &[most]);
        for (flag, word) in FLAGS.into_iter().zip(FIRST_FLAG..=12) {
            let _ = rt.print(self.name);
            let _ = rt.print(format_args!(" {flag}"));
            self.judge_word(rt, state, tally, "count above packets", word, &[most + 1]);
        }
    }

    fn judge(
        &self,
        rt: &impl Print,
        state: &Memory,
        tally: &mut Tally,
        name: &str,
        word: u8,
        words: &[u64],
    ) {
        let _ = rt.print(self.name);
        self.judge_word(rt, state, tally, name, word, words);
    }

    // The same, with the direction's name in front of the line already.
    fn judge_word(
        &self,
        rt: &impl Print,
        state: &Memory,
        tally: &mut Tally,
        name: &str,
        word: u8,
        words: &[u64],
    ) {
        let word = usize::from(self.first_word) + usize::from(word);
        let mut copy = *state;
        put_words(&mut copy, FIRST_RECORD + word * WORD, words);
        tally.judge(rt, format_args!(" {name}"), &copy);
    }
}
