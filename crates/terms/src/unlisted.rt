// What is said of a code that no word has.

// A code that is not listed is an answer too: the reader of records refuses it. Each of the four lists of words has its own `From` and
// `TryFrom`: the traits want one for each type, and no macro of ours may write them.
#[derive(Clone, Copy, PartialEq, Eq)]
pub struct Unlisted;
