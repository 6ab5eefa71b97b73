// The tables of the 1980 machine: the words of the suffix and the prefix machine and of the consonant pairs. CR 4. Each word has 36 bits.
// specs/ has the same tables in 004's own terms: suffix_table, prefix_table, vowel_word and pair_word promise those, and what word_at reads of
// a table is that table's word by proofs/Readers.antt.
#![tactic(auto)]

ghost use Rattle.std.specs.Prelude.{◌≡◌, get_or};
ghost use Rattle.tables1980.specs.Words.{◌ε◌, opcode, truex, falsex, oprand};
ghost use Rattle.tables1980.specs.Suffix.{suffix_words, suffix};
ghost use Rattle.tables1980.specs.Prefix.{prefix_words};
ghost use Rattle.tables1980.specs.Pairs.{btable};

// How many rows each of the two machines has.
pub const ROWS: usize = 109;

// The pair table's rows stand for the codes from this one on, one for each.
const FIRST_PAIR: usize = 2;

const PAIR_ROWS: usize = 30;

// How many bits a word has.
const WORD_BITS: u8 = 36;

// A field of an instruction has nine bits: so many values.
const FIELD: u64 = 512;

// Three octal digits for each field: opcode, truex, falsex, operand. The letter masks are read bit by bit.
static SUFFIX: [u64; ROWS] = [
    0o610_404_042_000, // 0, mask aeiouy
    0o005_000_000_000, // 1, a
    0o005_000_000_000, // 2, b
    0o000_042_001_151, // 3, c
    0o007_001_000_000, // 4, d
    0o010_046_000_000, // 5, e
    0o005_000_000_000, // 6, f
    0o000_074_001_156, // 7, g
    0o005_000_000_000, // 8, h
    0o005_000_000_000, // 9, i
    0o005_000_000_000, // 10, j
    0o005_000_000_000, // 11, k
    0o000_107_110_141, // 12, l
    0o005_000_000_000, // 13, m
    0o000_115_001_157, // 14, n
    0o005_000_000_000, // 15, o
    0o005_000_000_000, // 16, p
    0o005_000_000_000, // 17, q
    0o000_121_001_145, // 18, r
    0o010_125_000_000, // 19, s
    0o000_136_001_156, // 20, t
    0o005_000_000_000, // 21, u
    0o005_000_000_000, // 22, v
    0o005_000_000_000, // 23, w
    0o005_000_000_000, // 24, x
    0o000_037_142_154, // 25, y
    0o011_000_000_000, // 26, z
    0o004_000_000_000, // 27
    0o004_000_000_001, // 28
    0o004_000_000_002, // 29
    0o004_000_000_003, // 30
    0o006_000_000_000, // 31
    0o006_000_000_001, // 32
    0o006_000_000_002, // 33
    0o000_043_032_160, // 34, e/ic
    0o000_044_032_157, // 35, pe/pic
    0o000_045_032_143, // 36, ope/opic
    0o000_033_032_163, // 37, cope/copic
    0o000_047_050_154, // 38, e
    0o000_051_032_142, // 39, le
    0o000_052_053_164, // 40, e
    0o000_054_032_141, // 41, ble
    0o000_055_032_141, // 42, te
    0o000_056_057_172, // 43, e
    0o000_060_061_164, // 44, able
    0o002_154_032_062, // 45, ate
    0o000_063_032_151, // 46, ze
    0o000_064_065_166, // 47, e
    0o002_041_032_066, // 48, table
    0o002_040_032_153, // 49, able
    0o040_040_000_000, // 50, mask cl
    0o000_040_032_154, // 51, ize
    0o000_067_032_151, // 52, ve
    0o000_070_042_162, // 53, e
    0o000_010_400_000, // 54, mask nr
    0o000_033_032_164, // 55, ive/ure
    0o000_067_071_165, // 56, re
    0o000_072_032_145, // 57, re
    0o000_073_032_150, // 58, ere
    0o000_045_032_160, // 59, here
    0o000_075_001_151, // 60, ng
    0o003_076_001_000, // 61, ing
    0o000_077_100_154, // 62, ing
    0o002_033_102_101, // 63, ling
    0o002_034_104_103, // 64, ing
    0o166_002_101_000, // 65, mask bcdfgptz
    0o000_105_034_153, // 66, ling
    0o004_000_201_000, // 67, mask fsz
    0o002_034_106_000, // 68, ing
    0o000_035_033_143, // 69, kling
    0o001_033_033_000, // 70, ing
    0o000_111_112_151, // 71, al
    0o000_113_001_165, // 72, l
    0o000_033_114_164, // 73, al/ial
    0o000_016_111_156, // 74, al
    0o000_037_001_146, // 75, ul
    0o000_033_001_143, // 76, al/ial/ient
    0o000_116_001_151, // 77, on/onal
    0o002_120_001_117, // 78, ion/ional
    0o000_000_300_000, // 79, mask st
    0o010_033_000_004, // 80, sion/sional/tion/tional
    0o000_122_001_150, // 81, er/y
    0o000_123_001_160, // 82, her/hy
    0o000_124_001_141, // 83, pher/phy
    0o000_033_001_162, // 84, apher/aphy
    0o000_126_127_165, // 85, s
    0o000_130_004_157, // 86, us
    0o000_131_004_163, // 87, s
    0o000_132_004_151, // 88, ous
    0o000_133_004_145, // 89, ss
    0o000_134_004_143, // 90, ious
    0o002_037_004_135, // 91, ess
    0o000_033_033_163, // 92, cious
    0o000_050_000_000, // 93, mask ln
    0o000_137_001_145, // 94, nt
    0o000_037_140_155, // 95, ent
    0o000_033_141_144, // 96, ent
    0o000_114_001_151, // 97, ent
    0o000_143_144_147, // 98, y
    0o000_033_001_157, // 99, gy
    0o000_145_121_162, // 100, y
    0o000_146_001_141, // 101, ry
    0o000_147_001_156, // 102, ary
    0o000_150_151_157, // 103, nary
    0o000_152_034_151, // 104, onary
    0o000_035_033_145, // 105, nary
    0o006_000_000_003, // 106, ionary
    0o011_544_076_000, // 107, mask ehiklouvwxy
    0o002_034_032_000, // 108, cate/late
];

// The same four fields; a table's letters stand in its last three.
static PREFIX: [u64; ROWS] = [
    0o005_000_000_000, // 0, no letter
    0o004_000_000_000, // 1, a
    0o000_042_006_145, // 2, b
    0o000_044_006_157, // 3, c
    0o000_046_006_151, // 4, d
    0o000_051_054_161, // 5, e
    0o007_000_000_000, // 6, f
    0o002_000_000_000, // 7, g
    0o000_055_057_141, // 8, h
    0o000_033_067_155, // 9, i
    0o007_000_000_000, // 10, j
    0o007_000_000_000, // 11, k
    0o000_075_006_145, // 12, l
    0o000_077_106_141, // 13, m
    0o000_114_006_157, // 14, n
    0o000_115_116_165, // 15, o
    0o000_121_006_163, // 16, p
    0o000_125_006_165, // 17, q
    0o007_000_000_000, // 18, r
    0o000_127_131_145, // 19, s
    0o000_141_143_150, // 20, t
    0o000_152_001_156, // 21, u
    0o007_000_000_000, // 22, v
    0o007_000_000_000, // 23, w
    0o007_000_000_000, // 24, x
    0o004_000_000_000, // 25, y
    0o007_000_000_000, // 26, z
    0o006_000_000_000, // 27
    0o006_000_000_001, // 28
    0o006_000_000_002, // 29
    0o010_000_000_000, // 30
    0o010_000_000_001, // 31
    0o010_000_000_002, // 32
    0o010_000_000_003, // 33
    0o002_041_000_210, // 34, be
    0o000_001_033_151, // 35, un
    0o000_036_045_155, // 36, co
    0o000_036_001_156, // 37, co
    0o000_047_001_163, // 38, di
    0o000_007_050_150, // 39, dis
    0o000_001_033_171, // 40, dis
    0o000_052_006_165, // 41, eq
    0o000_053_006_151, // 42, equ
    0o000_036_036_166, // 43, equi
    0o000_036_001_170, // 44, e
    0o000_056_001_156, // 45, ha
    0o000_036_007_144, // 46, han
    0o000_060_063_157, // 47, h
    0o000_061_001_162, // 48, ho
    0o000_062_007_163, // 49, hor
    0o000_036_007_145, // 50, hors
    0o000_064_006_171, // 51, h
    0o000_065_001_160, // 52, hy
    0o000_066_007_145, // 53, hyp
    0o000_041_001_162, // 54, hype
    0o000_070_001_156, // 55, i
    0o000_071_033_164, // 56, in
    0o000_072_073_145, // 57, int
    0o000_041_035_162, // 58, inte
    0o000_074_034_162, // 59, int
    0o000_041_035_157, // 60, intr
    0o000_076_001_170, // 61, le
    0o000_037_007_151, // 62, lex/max/min
    0o000_100_102_143, // 63, ma
    0o000_101_007_162, // 64, mac
    0o000_040_007_157, // 65, macr
    0o000_103_105_164, // 66, ma
    0o000_104_007_150, // 67, mat
    0o000_037_007_145, // 68, math
    0o000_076_001_170, // 69, ma
    0o000_107_110_151, // 70, m
    0o000_076_001_156, // 71, mi
    0o000_111_006_165, // 72, m
    0o000_112_001_154, // 73, mu
    0o000_113_007_164, // 74, mul
    0o000_040_007_151, // 75, mult
    0o000_033_001_156, // 76, no
    0o000_036_001_164, // 77, ou
    0o000_117_001_166, // 78, o
    0o000_120_007_145, // 79, ov
    0o000_033_001_162, // 80, ove
    0o000_122_006_145, // 81, ps
    0o000_123_001_165, // 82, pse
    0o000_124_001_144, // 83, pseu
    0o000_040_007_157, // 84, pseud
    0o000_126_006_141, // 85, qu
    0o000_036_001_144, // 86, qua
    0o000_130_001_155, // 87, se
    0o000_036_007_151, // 88, sem
    0o000_132_134_157, // 89, s
    0o000_133_001_155, // 90, so
    0o000_036_007_145, // 91, som/ther
    0o000_135_006_165, // 92, s
    0o000_036_136_142, // 93, su
    0o000_137_001_160, // 94, su
    0o000_140_007_145, // 95, sup
    0o000_041_001_162, // 96, supe
    0o000_142_006_145, // 97, th
    0o000_133_001_162, // 98, the
    0o000_144_006_162, // 99, t
    0o000_145_150_141, // 100, tr
    0o000_146_001_156, // 101, tra
    0o000_147_007_163, // 102, tran
    0o002_206_060_000, // 103, trans
    0o000_151_006_151, // 104, tr
    0o002_204_000_040, // 105, tri
    0o000_153_043_144, // 106, un
    0o000_154_034_145, // 107, und
    0o000_041_035_162, // 108, unde
];

// The letters of a pair, then an octal digit for the row of its weak letters and one for h.
static PAIRS: [u64; PAIR_ROWS] = [
    0o0001010000_0_0, // 2, b
    0o0001010000_0_4, // 3, c
    0o0040010000_0_0, // 4, d
    0o0001010000_0_0, // 5, ch
    0o0001012000_1_0, // 6, f
    0o0001010000_0_4, // 7, g
    0o0000000000_0_0, // 8, h
    0o0000002000_0_0, // 9, gh
    0o0000000000_0_0, // 10, j
    0o0000200000_0_0, // 11, k
    0o0402020000_2_0, // 12, l
    0o0000040000_3_0, // 13, m
    0o0642006100_4_0, // 14, n
    0o0000010000_0_0, // 15, ph
    0o0001010000_0_1, // 16, p
    0o0000000000_0_0, // 17, q
    0o0042602000_5_0, // 18, r
    0o0000062000_1_4, // 19, s
    0o0200010000_0_7, // 20, t
    0o0000000000_0_0, // 21, sh
    0o0000000000_0_0, // 22, v
    0o0021210000_0_0, // 23, w
    0o0000000000_0_0, // 24, x
    0o0000010000_0_0, // 25, th
    0o0000000000_0_0, // 26, z, no weak letters
    0o0000002000_0_0, // 27, weak letters 1
    0o0400000000_0_0, // 28, weak letters 2
    0o0000040000_0_0, // 29, weak letters 3
    0o0440006000_0_0, // 30, weak letters 4
    0o0040602000_0_0, // 31, weak letters 5
];

// The tables by name: whoever runs a machine reads its table in place, and a proof above sees the list's name and not its numbers.
// One function for both would only take the table's name as its argument, which is no plainer.
pub fn suffix_table() -> &'static [u64; ROWS]
    ensures { result.now ≡ suffix_words }
{
    &SUFFIX
}

pub fn prefix_table() -> &'static [u64; ROWS]
    ensures { result.now ≡ prefix_words }
{
    &PREFIX
}

// The word of a row, 0 past the table: the definitions `suffix` and `prefix` read 0 there, so this is no Option. One reader for both machines:
// what it gives of each table is in proofs/Readers.antt.
pub fn word_at(words: &[u64], row: usize) -> u64
    ensures { result ≡ get_or words.now row 0 }
{
    words.get(row).copied().unwrap_or(0)
}

// The mask of the vowels.
#[tactic(auto, unfolding(crate::specs::Suffix::suffix, crate::specs::Suffix::suffix_words))]
pub fn vowel_word() -> u64
    ensures { result ≡ suffix 0 }
{
    SUFFIX[0]
}

// The pair table's word of a code, 0 where it has none, as the definition `btable` has it (so no Option).
#[tactic(auto, unfolding(crate::specs::Pairs::btable, crate::specs::Pairs::pair_words))]
pub fn pair_word(c: u8) -> u64
    ensures { result ≡ btable c }
{
    (c as usize)
        .checked_sub(FIRST_PAIR)
        .map_or(0, |row| word_at(&PAIRS, row))
}

// The fields of an instruction's word.
pub fn opcode(w: u64) -> u64
    ensures { result ≡ opcode w }
{
    w >> 27
}

pub fn truex(w: u64) -> u16
    ensures { result ≡ truex w }
{
    ((w >> 18) % FIELD) as u16
}

pub fn falsex(w: u64) -> u16
    ensures { result ≡ falsex w }
{
    ((w >> 9) % FIELD) as u16
}

pub fn operand(w: u64) -> u16
    ensures { result ≡ oprand w }
{
    (w % FIELD) as u16
}

// Is the bit at a place of a word set, bit 0 being the leading one?
pub fn has_bit(word: u64, place: u8) -> bool
    ensures { result ≡ place ε word }
{
    place < WORD_BITS && (word >> (WORD_BITS - 1 - place) as u64) % 2 == 1
}
