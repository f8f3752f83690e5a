//! Laws of the definitions, each on a call that does nothing.

ghost use Rattle.std.specs.Prelude.{◌≡◌, ◌++◌, List, ℕ, Some, None, Option, Err};
ghost use Rattle.ss_http.specs.Messages.{ReadsMessage, NoMessage, NeverMessage, Splits};
ghost use Rattle.ss_http.specs.Faults.{IsMessageFault, IsRefusal};
ghost use Rattle.ss_http.specs.Hearing.{AfterAll, Hears, Hearing, IsSound, heard_of_response};
ghost use Rattle.ss_http.specs.Requests.{IsSendable, message_sent, request_text};
ghost use Rattle.ss_http.specs.Responses.{response};
ghost use Rattle.ss_http.specs.declared.fault.MsgFault.{MsgFault};
ghost use Rattle.ss_http.specs.declared.fault.MsgFault.TheVariants as faults;
ghost use Rattle.ss_http.specs.declared.heard.Heard.{Heard};
ghost use Rattle.ss_http.specs.declared.heard.HeardFault.{HeardFault};
ghost use Rattle.ss_http.specs.declared.message.Message.{Message};
ghost use Rattle.ss_http.specs.declared.response.ResponseHead.{ResponseHead};
ghost use Rattle.ss_text.specs.declared.stamps.Cond.{Cond};

/// An input is in at most one way a list of messages and a rest that begins with none.
pub fn one_way()
    ensures { (input : List ℕ) (ms ns : List Message) (r q : List ℕ) → Splits input ms r → Splits input ns q → (ms ≡ ns)
        × (r ≡ q) }
{}

/// Where there is a fault, no message stands at the front, unless memory was wanting; where a message was refused, none
/// does whatever follows.
pub fn faults_are_no_messages()
    ensures none { (e : MsgFault) (bytes : List ℕ) → (e ≡ faults.Memory → ⊥) → IsMessageFault e bytes
        → NoMessage bytes }
    ensures never { (e : MsgFault) (bytes : List ℕ) → IsRefusal e → IsMessageFault e bytes → NeverMessage bytes }
{}

/// A request that is sent is read as its message, whatever follows it.
pub fn requests_are_read()
    ensures { (method target host : List ℕ) (cond : Cond) (body : Option (List ℕ)) (rest : List ℕ)
        → IsSendable method target host cond body
        → ReadsMessage (request_text method target host cond body ++ rest) (message_sent method target host cond body)
        rest }
{}

/// A written response is heard as it was meant, whatever follows it; an input is heard in one way; and a response that
/// stands whole at the front is refused by no fault but of the source or for want of memory.
pub fn responses_are_heard()
    ensures said { (head : ResponseHead) (body rest : List ℕ) → IsSound head body
        → Hears (response head body ++ rest) (heard_of_response head body) rest }
    ensures once { (input : List ℕ) (a b : Heard) (r q : List ℕ) → Hears input a r → Hears input b q → (a ≡ b)
        × (r ≡ q) }
    ensures always { (got left : List ℕ) (heard : Heard) (rest : List ℕ) (e : HeardFault)
        → Hears (got ++ left) heard rest
        → Hearing (Err e) got → AfterAll e left }
{}
