// Whole text lists: the first bad line, and the grounds 8, 7 and 6.
#![tactic(auto)]

ghost use Rattle.std.specs.Prelude.{Ok, [], ◌≡◌, ◌+◌, drop};
ghost use Rattle.base.specs.Grounds.{Finds, says, first_of};
ghost use Rattle.lines.specs.Lines.{line_length, first_line};
ghost use Rattle.lines.specs.Ends.{end_if};
ghost use Rattle.lists.specs.declared.Form.{Form};
ghost use Rattle.lists.specs.Lists.{good_line, judge_lines, size_grounds, bad_pattern, bad_exception, pattern_grounds, exception_grounds, list_grounds, judge_patterns};

use base::Ground;

// What the lines of a list are. A name and no closure for what judges a line: the definitions `good_line` and `judge_lines` and their theorems
// speak of the two forms.
#[derive(Clone, Copy)]
pub enum Form {
    Patterns,
    Exceptions,
}

// A pattern list that was judged: within its size, and without a bad line. Whoever makes one has judged it.
#[derive(Clone, Copy)]
pub struct PatternList<'a> {
    pub text: &'a [u8],

    pub ghost judged: { judge_patterns text.now ≡ Ok tt },
}

// Where the line that begins at a place ends, if it is good as it stands.
#[tactic(auto, using(crate::proofs::Laws::pattern_form_lem, crate::proofs::Laws::exception_form_lem))]
fn good_end(form: Form, text: &[u8], at: usize) -> Option<usize>
    ensures { result ≡ end_if (good_line form (first_line (drop at text.now))) (at + line_length (drop at text.now)) }
{
    match form {
        Form::Patterns => lines::pattern_end(text, at),
        Form::Exceptions => lines::exception_end(text, at),
    }
}

// The first line that is bad by itself or does not ascend from the one above. Each byte is read a fixed number of times.
pub fn judge_lines(form: Form, text: &[u8]) -> Result<(), usize>
    ensures { result ≡ judge_lines form text.now }
{
    let mut above = 0;
    let mut at = 0;
    // `good_end` judges a line and so finds where the next begins: an iterator over lines, which tells the same a second time, is no plainer.
    while at < text.len() {
        let found = good_end(form, text, at);
        let Some(end) = found else {
            return Err(at); // bad as it stands
        };
        if !lines::ascends(&text[above..at], &text[at..end]) {
            return Err(at);
        }
        above = at;
        at = end;
    }
    Ok(())
}

#[tactic(auto, unfolding(crate::specs::Lists::size_grounds, base::specs::Grounds::says, base::specs::Grounds::first_of))]
pub fn judge_size(limit: usize, text: &[u8]) -> Result<(), Ground>
    ensures { says result ≡ first_of (Finds []) (size_grounds limit text.now) }
{
    if limit < text.len() {
        return Err(Ground::TextLong);
    }
    Ok(())
}

// A pattern text: 8, then 7. One function for both forms, with what makes the ground as a closure, is no plainer: it would stand for the two
// lines here and the two of `judge_exceptions`, and `judge_lists`, which asks the sizes of both its lists first, could not call it.
pub fn judge_patterns(text: &[u8]) -> Result<(), Ground>
    ensures { says result ≡ first_of (Finds []) (pattern_grounds text.now) }
{
    judge_size(base::PATTERN_TEXT, text)?;
    judge_lines(Form::Patterns, text).map_err(Ground::BadPattern)
}

// The lines of an exception list, which the ground names.
fn judge_exception_lines(list: usize, text: &[u8]) -> Result<(), Ground>
    ensures { result ≡ bad_exception list (judge_lines Form.Exceptions text.now) }
{
    judge_lines(Form::Exceptions, text).map_err(|offset| Ground::BadException { list, offset })
}

// An exception text of at most limit bytes: 8, then 6 with the list's number.
pub fn judge_exceptions(list: usize, limit: usize, text: &[u8]) -> Result<(), Ground>
    ensures { says result ≡ first_of (Finds []) (exception_grounds list limit text.now) }
{
    judge_size(limit, text)?;
    judge_exception_lines(list, text)
}

// Both exception texts: 8 for either, then 6 for the customer's, then 6 for the house's. Two texts and no struct of them: the calls, C's too, and
// their definitions have two.
pub fn judge_lists(customer: &[u8], house: &[u8]) -> Result<(), Ground>
    ensures { says result ≡ first_of (Finds []) (list_grounds customer.now house.now) }
{
    judge_size(base::EXCEPTION_TEXT, customer)?;
    judge_size(base::EXCEPTION_TEXT, house)?;
    judge_exception_lines(base::CUSTOMER_LIST, customer)?;
    judge_exception_lines(base::HOUSE_LIST, house)
}
