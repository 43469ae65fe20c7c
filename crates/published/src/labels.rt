// Labels: which names are right, and the table in which each is kept as a place of the text. Names are looked up in buckets, so that a
// listing full of jumps costs no more than another.
ghost use Rattle.std.specs.Prelude.{◌≡◌, ◌+◌, ◌*◌, ◌%◌, ◌<◌, take, drop};
ghost use Rattle.model.specs.Text.{same_bytes};
ghost use Rattle.text.specs.Fields.{found};
ghost use Rattle.published.specs.Published.{all_alphanumeric, is_name, find as findLabel, is_within};
ghost use Rattle.published.specs.Table.{bucket_of, buckets, entries, Linked, Added};

use crate::parts::part;

// The most bytes of a name, and the most labels of a text.
const MAX_NAME: usize = 16;

const MAX_LABELS: usize = 1025;

// The buckets, each with its last label, counted from 1.
const BUCKETS: usize = 1024;

// A label in the table: where its name begins in the text, how long it is, the line that it names, and the label before it in its bucket,
// counted from 1.
#[derive(Clone, Copy)]
pub struct Entry {
    pub start: usize,
    pub size: usize,
    pub line: usize,
    pub before: usize,
}

const BLANK: Entry = Entry {
    start: 0,
    size: 0,
    line: 0,
    before: 0,
};

// The labels of a text, each a place of it. Labels of one bucket are linked, and `heads` has the last of each. The memory is fixed, since
// there is no heap: `count` says how many entries hold a label, and 0 in `heads` or `before` says none, where an Option takes twice the room.
#[derive(Drop)]
pub struct Labels<'t> {
    pub text: &'t [u8],
    pub heads: [usize; BUCKETS],
    pub table: [Entry; MAX_LABELS],
    pub count: usize,
    pub ghost linked: { Linked text.now heads table count },
}

// Every byte is looked at, so that several are at a time.
pub(crate) fn all_alphanumeric(s: &[u8]) -> bool
    ensures { result ≡ all_alphanumeric s.now }
{
    let mut all = true;
    for b in s {
        all &= b.is_ascii_alphanumeric();
    }
    all
}

// 1 to 16 letters or digits.
#[tactic(auto, unfolding(crate::specs::Published::is_name))]
fn is_name(s: &[u8]) -> bool
    ensures { result ≡ is_name s.now }
{
    0 < s.len() && s.len() <= MAX_NAME && all_alphanumeric(s)
}

// The same bytes. All are looked at here too, where `==` ends early.
fn is_same(x: &[u8], y: &[u8]) -> bool
    ensures { result ≡ same_bytes x.now y.now }
{
    if x.len() != y.len() {
        return false;
    }
    let mut same = true;
    for i in 0..x.len() {
        same &= x[i] == y[i];
    }
    same
}

// A number of the bytes so far, and one more.
fn mixed(h: usize, b: u8) -> usize
    requires { h < 65536 }
    ensures { (result ≡ (9 * h + b) % 65536) × (result < 65536) }
{
    (9 * h + (b as usize)) % 65536
}

// The bucket of a name, by its last bytes: names that are numbered differ there.
pub(crate) fn bucket(name: &[u8]) -> usize
    ensures { (result ≡ bucket_of name.now) × (result < buckets) }
{
    let mut h: usize = 0;
    for b in &name[name.len().saturating_sub(8)..] {
        h = mixed(h, *b);
    }
    h % BUCKETS
}

impl<'t> Labels<'t> {
    // The labels of a text before any is kept.
    pub(crate) fn new(text: &'t [u8]) -> Self
        ensures text { result.text.now ≡ text.now }
        ensures none { result.count ≡ 0 }
    {
        Labels {
            text,
            heads: [0; BUCKETS],
            table: [BLANK; MAX_LABELS],
            count: 0,
        }
    }

    // Which line a name stands for; h is its bucket, passed so that `add`, which needs it again, works it out once.
    pub(crate) fn find(&self, name: &[u8], h: usize) -> Option<usize>
        requires { (h ≡ bucket_of name.now) × (h < buckets) }
        ensures { found result ≡ findLabel name.now (entries self.now.text.now self.now.table self.now.count) }
    {
        let mut k = self.heads[h];
        while 0 < k {
            let l = self.table[k - 1];
            if is_same(part(self.text, l.start, l.size), name) {
                return Some(l.line);
            }
            k = l.before;
        }
        None
    }

    // Is a label with this name within the limits, after the others? h is its bucket.
    fn is_within(&self, name: &[u8], h: usize) -> bool
        requires { (h ≡ bucket_of name.now) × (h < buckets) }
        ensures { result ≡ is_within (entries self.now.text.now self.now.table self.now.count) name.now }
    {
        is_name(name) && self.find(name, h).is_none() && self.count < MAX_LABELS
    }

    // Keeps a label after the others, where it is within the limits.
    pub(crate) fn add(&mut self, start: usize, size: usize, line: usize)
        ensures text { self.new.text.now ≡ self.old.text.now }
        ensures added { Added self.old.text.now self.old.table self.new.heads self.new.table self.old.count self.new.count (take size (drop start self.old.text.now)) line }
    {
        let name = part(self.text, start, size);
        let h = bucket(name);
        if !self.is_within(name, h) {
            return;
        }
        self.table[self.count] = Entry {
            start,
            size,
            line,
            before: self.heads[h],
        };
        self.count += 1;
        self.heads[h] = self.count;
    }
}
