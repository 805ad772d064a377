//! The law of requests and replies. The function does nothing: its clause is the law.

ghost use Rattle.vm_requests.specs.Requests.{RepliesAnswerRequests};

/// Each reply that a run has taken in answers a request of its trace, and where it waits there is one request more.
pub fn replies_answer_requests()
    ensures { RepliesAnswerRequests }
{}
