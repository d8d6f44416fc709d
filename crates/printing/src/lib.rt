// The plan or the refusal of a sheet as lines of text: document 01, the program `planshow`. The function ends on every input and asks nothing.

#![tactic(auto)]

ghost use Rattle.std.specs.Prelude.{◌≡◌, ◌≤◌, length, take};
ghost use Rattle.lines.specs.Texts.{text_for, AtFront};
ghost use Rattle.printing.specs.Showing.{text_after, text_length, Shows};

// Bytes of text that are enough for every sheet.
pub const ROOM: usize = 6069;

// Plans a sheet and prints its plan, or its refusal, to the front of a text; answers how many bytes that are, 0 where the text has fewer than ROOM.
pub fn show(sheet: &[u8], text: &mut [u8]) -> usize
    ensures text { text.new ≡ text_after sheet.now text.old }
    ensures length { result ≡ text_length sheet.now text.old }
    ensures front { AtFront result text.new }
    ensures shows { text_for 300 ≤ length text.old → Shows sheet.now (take result text.new) }
{
    if text.len() < ROOM {
        return 0;
    }
    let mut plan = [0u8; 619];
    let mut words = [0u64; tails::WORDS];
    match planner::plan(sheet, &mut plan, &mut words) {
        Ok(_) => lines::plan_lines(&plan, text),
        Err(refusal) => {
            let number = u64::from(refusal.number());
            let option = u64::from(refusal.option());
            lines::text::put_pair(text, 0, b"refused", number, option)
        }
    }
}
