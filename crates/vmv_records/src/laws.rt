ghost use Rattle.std.specs.Prelude.{◌≡◌, ℕ, List, Some};
ghost use Rattle.vmv_keeper.specs.declared.act.Act.{Act};
ghost use Rattle.vmv_keeper.specs.declared.reply.Reply.{Reply};
ghost use Rattle.vmv_records.specs.Spelling.{act_bytes, reply_bytes, IsAct, IsReply};

/// A law, with nothing to do: no two acts have the same bytes, and no two replies.
pub fn bytes_are_of_one_record()
    ensures acts { (a b : Act) → IsAct a → IsAct b → act_bytes a ≡ act_bytes b → a ≡ b }
    ensures replies { (a b : Reply) (bytes : List ℕ) → IsReply a → IsReply b → reply_bytes a ≡ Some bytes → reply_bytes b ≡ Some bytes → a ≡ b }
{}
