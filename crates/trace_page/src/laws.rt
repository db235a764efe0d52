//! What holds of all pages. The functions do nothing: their contracts are the laws.
ghost use Rattle.trace_page.specs.Promises.{HoldsItsTrace, IsOfOneTrace, NeedsNoEscape};

/// A page holds its trace: what stands between the tags `<code>` and `</code>`, one after the other and each with a line
/// feed, is the text of the trace. So there is one row a frame, in order, and none is made up.
pub fn a_page_holds_its_trace()
    ensures { HoldsItsTrace }
{}

/// A page is that of one trace.
pub fn a_page_is_of_one_trace()
    ensures { IsOfOneTrace }
{}

/// Whatever the frames bear, what a row has of them are digits, letters, spaces and `+`, `-`, `.`, `,`, `(`, `)`: no byte of
/// a handheld's can make a tag.
pub fn pages_need_no_escape()
    ensures { NeedsNoEscape }
{}
