// The fault of a question.
pub mod calls;

// A question that is not well put: the task asked about, or one of the set, is not listed, or the set has the task.
#[derive(Clone, Copy, PartialEq, Eq, Debug)]
pub enum QuestionFault {
    IllPut(u64),
}
