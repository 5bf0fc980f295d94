// Marks on a held record, in its head: acknowledged, to be sent again, abandoned.
#![tactic(auto)]

ghost use Rattle.std.specs.Prelude.{◌≡◌, cond};
ghost use Rattle.inflight_model.specs.Queue.{acked_head, abandoned_head, again_head};

// The head of an acknowledged record: it is not to be sent again, and its length is released.
pub fn acked_head(head: u32) -> u32
    ensures { result ≡ acked_head head }
{
    head / 524288 * 524288 + head / 131072 % 2 * 131072 + 65536
}

// The head of an abandoned record, if it is one.
pub fn abandoned_if(hit: bool, head: u32) -> u32
    ensures { result ≡ cond hit (abandoned_head head) head }
{
    if hit {
        return head / 524288 * 524288 + 131072 + head / 65536 % 2 * 65536;
    }
    head
}

// The head of a record that is to be sent again, unless it is acknowledged or abandoned.
pub fn again_head(head: u32) -> u32
    ensures { result ≡ again_head head }
{
    if head / 65536 % 4 == 0 {
        return head / 524288 * 524288 + 262144 + head % 65536;
    }
    head
}
