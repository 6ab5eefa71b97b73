// The figures of document 01 that are run and compared, judgements of words and lists and lookups, and those of CR 1, breaks by
// exception lines, of CR 2, which break fits, and of CR 5, apostrophes. Each line of the output is a sample and what it is told: number, list and place, all 0
// where nothing is refused; the line that is shown for a word; behind word and margins the number of breaks, the count and the gaps that
// break; or, behind a word and the line in words, what came out and the gap, a refusal as "?", number and place.
#![tactic(auto)]

use base::Ground;
use gauge::{Fitting, Gauge};
use hyphenation::Setting;

// "Empty list: C 1, E 0, 12 bytes": a table in which no walk finds anything.
const EMPTY_TABLE: [u8; 12] = [1, 1, 0, 1, 0, 0, 2, 0, 0, 0, 0, 0];

// The descriptor of standard output.
const OUTPUT: i32 = 1;

// Each number behind a space.
fn put_numbers(numbers: &[usize]) {
    for n in numbers {
        io::write_all(OUTPUT, b" ");
        io::print_decimal(OUTPUT, *n as u64);
    }
}

fn show(sample: &[u8], judged: Result<(), Ground>) {
    io::write_all(OUTPUT, sample);
    io::write_all(OUTPUT, b":");
    match judged {
        Ok(()) => put_numbers(&[0, 0, 0]),
        Err(g) => put_numbers(&[g.number(), g.list(), g.place()]),
    }
    io::write_all(OUTPUT, b"\n");
}

fn word(sample: &[u8]) {
    show(sample, words::judge_word(sample, base::WORD_LIMIT));
}

fn patterns(sample: &[u8]) {
    show(sample, lists::judge_patterns(sample));
}

fn exceptions(sample: &[u8]) {
    show(
        sample,
        lists::judge_exceptions(base::HOUSE_LIST, base::EXCEPTION_TEXT, sample),
    );
}

fn find<'a>(sample: &[u8], customer: &'a [u8], house: &'a [u8]) {
    io::write_all(OUTPUT, sample);
    io::write_all(OUTPUT, b": ");
    io::write_all(OUTPUT, lookup::lookup(sample, customer, house));
    io::write_all(OUTPUT, b"\n");
}

fn gaps(room: &[u8]) {
    for (i, mark) in room.iter().enumerate() {
        if *mark != 0 {
            put_numbers(&[i]);
        }
    }
}

fn breaks<'a>(left: usize, right: usize, sample: &[u8], customer: &'a [u8], house: &'a [u8]) {
    let mut room = [0u8; base::ROOM_SIZE];
    let setting = Setting {
        left,
        right,
        customer,
        house,
        table: &EMPTY_TABLE,
    };
    let answer = hyphenation::hyphenate(&setting, sample, &mut room);
    io::write_all(OUTPUT, sample);
    put_numbers(&[left, right]);
    io::write_all(OUTPUT, b":");
    if let Ok(found) = answer {
        put_numbers(&[found.marks, found.looks]);
    }
    gaps(&room);
    io::write_all(OUTPUT, b"\n");
}

// What came out, by its number, and the gap, as the figures are told. `tteolmigu` makes bits of the same three cases: a pair that both read would take
// these arms too, and a contract more, so it is no plainer.
fn show_fitting(fitting: Result<Fitting, Ground>) {
    match fitting {
        Ok(Fitting::Whole) => put_numbers(&[gauge::WHOLE_OUTCOME, 0]),
        Ok(Fitting::Break(gap)) => put_numbers(&[gauge::BREAK_OUTCOME, gap]),
        Ok(Fitting::Nowhere) => put_numbers(&[gauge::NONE_OUTCOME, 0]),
        Err(g) => {
            io::write_all(OUTPUT, b" ?");
            put_numbers(&[g.number(), g.place()]);
        }
    }
    io::write_all(OUTPUT, b"\n");
}

// A word of which every gap is a break: "a" has its own width, all other letters another.
fn fit(name: &[u8], hyphen: f64, line: f64, first: f64, other: f64, sample: &[u8]) {
    let mut widths = [other; base::WIDTH_COUNT];
    widths[0] = first;
    let gauge = Gauge { hyphen, line };
    let room = [7u8; base::ROOM_SIZE];
    io::write_all(OUTPUT, sample);
    io::write_all(OUTPUT, b", ");
    io::write_all(OUTPUT, name);
    io::write_all(OUTPUT, b":");
    show_fitting(gauge::fit_word(gauge, &widths, sample, &room));
}

fn some_words() {
    word(b"");
    word(b"a");
    word(b"aZ");
    word(b"a1");
    word(b"ab.cd");
    word(b"aaaaaaaaaaaaaaaaaaaaaaaaaaaaaaaaaaaaaaaaaaaaaaaaaaaaaaaaaaaaaaa");
    word(b"aaaaaaaaaaaaaaaaaaaaaaaaaaaaaaaaaaaaaaaaaaaaaaaaaaaaaaaaaaaaaaaa");
    word(b"aaaaaaaaaaaaaaaaaaaaaaaaaaaaaaaaaaaaaaaaaaaaaaaaaaaaaaaaaaaaaaa1");
}

fn some_patterns() {
    patterns(b"");
    patterns(b"\n");
    patterns(b"he2n\nhena4\nhen5at\nhy3ph\n2io\n1na\nn2at\no2n\n1tio\n");
    patterns(b"abcdefghijklmno1p\n");
    patterns(b"abcdefghijklmnop1q\n");
    patterns(b"abcdefghijklmno1.\n");
    patterns(b"abcdefghijklmnop1.\n");
    patterns(b".1a\n");
    patterns(b"1.a\n");
    patterns(b"a1.\n");
    patterns(b"a.1\n");
    patterns(b"..a1\n");
    patterns(b".1.\n");
    patterns(b"1a1\n");
    patterns(b"a12b\n");
    patterns(b"a0b\n");
    patterns(b"ab\n");
    patterns(b"A1\n");
    patterns(b"a1");
    patterns(b"a1\nb1\nb2\n");
    patterns(b"b1\na1\n");
    patterns(b"za1\n.a1\n");
    patterns(b".a1\nza1\n");
    patterns(b"a1\na1b\n");
    patterns(b"a1b\na1\n");
}

fn some_exceptions() {
    exceptions(b"");
    exceptions(b"a\n");
    exceptions(b"met-al\n");
    exceptions(b"-al\n");
    exceptions(b"al-\n");
    exceptions(b"a--l\n");
    exceptions(b"al\nbe\n\n");
    exceptions(b"idler\nid-ler\n");
    exceptions(b"ab\na\n");
    exceptions(b"a-b\nabc\n");
    exceptions(b"ab.\n");
    exceptions(
        b"a-a-a-a-a-a-a-a-a-a-a-a-a-a-a-a-a-a-a-a-a-a-a-a-a-a-a-a-a-a-a-a-a-a-a-a-a-a-a-a-a-a-a-a-a-a-a-a-a-a-a-a-a-a-a-a-a-a-a-a-a-a-a\n",
    );
    exceptions(b"aaaaaaaaaaaaaaaaaaaaaaaaaaaaaaaaaaaaaaaaaaaaaaaaaaaaaaaaaaaaaaaa\n");
}

fn some_lookups() {
    find(b"metal", b"", b"met-al\n");
    find(b"METAL", b"", b"al\nmet-al\n");
    find(b"meta", b"", b"met-al\n");
    find(b"metals", b"", b"met-al\n");
    find(b"idler", b"idler\n", b"id-ler\n");
    find(b"idler", b"-idler\n", b"id-ler\n");
    find(b"id1er", b"", b"id-ler\n");
}

fn some_breaks() {
    breaks(2, 3, b"metal", b"", b"met-al\n");
    breaks(2, 2, b"metal", b"", b"met-al\n");
    breaks(2, 3, b"METAL", b"met-al\n", b"me-tal\n");
    breaks(4, 1, b"metal", b"me-t-a-l\n", b"met-al\n");
    breaks(2, 3, b"hyphenation", b"hyph-e-nati-on\n", b"");
    breaks(2, 3, b"idler", b"idler\n", b"id-ler\n");
    breaks(2, 3, b"idler", b"", b"id-ler\n");
}

// 2^-53, half of the last place of 1.
const HALF: f64 = 0.00000000000000011102230246251565;

fn some_fits() {
    fit(b"ten tenths in 1", 0.1, 1.0, 0.1, 0.1, b"aaaaaaaaaa");
    fit(
        b"ten tenths in the double below 1",
        0.1,
        0.9999999999999999,
        0.1,
        0.1,
        b"aaaaaaaaaa",
    );
    fit(
        b"ten tenths in the one below that",
        0.1,
        0.9999999999999998,
        0.1,
        0.1,
        b"aaaaaaaaaa",
    );
    fit(b"three tenths in 0.3", 0.1, 0.3, 0.1, 0.1, b"aaa");
    fit(
        b"1 and halves of its last place in 1",
        0.0,
        1.0,
        1.0,
        HALF,
        b"abbbb",
    );
    fit(b"the halves before the 1", 0.0, 1.0, 1.0, HALF, b"bba");
    fit(
        b"a hyphen of 1 behind halves in 1",
        1.0,
        1.0,
        HALF,
        1.0,
        b"aab",
    );
    fit(b"a line of 0 for nothing", 0.0, 0.0, 0.0, 0.0, b"Ab");
    fit(b"all widths 1000", 1000.0, 1000.0, 1000.0, 1000.0, b"ab");
    fit(
        b"the double above 1000",
        1000.0,
        1000.0,
        1000.0,
        1000.0000000000001,
        b"a",
    );
    fit(b"the least number below 0", 0.0, 1.0, 0.0, -4.9e-324, b"a");
    fit(b"-0.0", -0.0, -0.0, -0.0, -0.0, b"ab");
    fit(b"not a number", 0.0, 1.0, 0.0, 0.0 / 0.0, b"a");
    fit(b"a line without end", 0.0, 1.0 / 0.0, 0.0, 0.0, b"a");
    fit(b"a bad line", 0.0, 1000.5, 0.0, 0.0, b"a");
    fit(b"a bad byte before a bad width", -1.0, 1.0, 1.0, 1.0, b"a1");
}

// CR 5: the same of words, lines and widths with an apostrophe.
fn some_apostrophes() {
    word(b"l'entrata");
    word(b"L'E");
    word(b"'a");
    word(b"a'");
    word(b"a''b");
    word(b"a'1");
    patterns(b"l'1e\nz1\n.a1\n'a1\n'a1.\n'a'1\n");
    patterns(b"'a1\n.a1\n");
    patterns(b".'a1\n");
    patterns(b"a1'.\n");
    patterns(b"a'1'b\n");
    patterns(b"'1\n");
    exceptions(b"l'-en\nl-'-en-tra-ta\n");
    exceptions(b"a'-'b\n");
    exceptions(b"l'\n");
    find(b"L'ENTRATA", b"l'en-tra-ta\n", b"l'-entrata\n");
    find(b"lentrata", b"l'en-tra-ta\n", b"");
    breaks(2, 3, b"l'entrata", b"", b"l'-en-tra-ta\n");
    breaks(3, 2, b"l'entrata", b"", b"l'-en-tra-ta\n");
    fit(
        b"a letter of 1, all else 2, in 3",
        0.0,
        3.0,
        1.0,
        2.0,
        b"a'b",
    );
    fit(b"a bad byte at the end", 0.0, 3.0, 1.0, 2.0, b"a'");
}

fn main() {
    some_words();
    some_patterns();
    some_exceptions();
    some_lookups();
    some_breaks();
    some_fits();
    some_apostrophes();
}
