ghost use Rattle.mb_machine.specs.Laws.{ReadyOneByOne, NoneIsReady, HandedOutOnce, NoLifeIsPast, HonestFilesAreSent, CompleteByHeard, TwoOrdersOneFile};

/// The laws of hand-outs: the first ready life being handed out, the other ready lives stay ready, and all hand-outs
/// lead to the same lives; where no life is ready, nothing is handed out. It does nothing.
pub fn ready_lives_go_one_by_one()
    ensures one { ReadyOneByOne }
    ensures none { NoneIsReady }
{}

/// The law of single hand-outs: a life that was handed out isn't ready. It does nothing.
pub fn handed_out_once()
    ensures { HandedOutOnce }
{}

/// The law of expiry: once the clock has moved, and after each packet, only lives stand whose expiry the clock hasn't
/// passed. It does nothing.
pub fn no_life_is_past()
    ensures { NoLifeIsPast }
{}

/// The law of honest sessions: where what was heard is honest for what was sent, no ready life is damaged, and its file
/// is the one that was sent. It does nothing.
pub fn honest_files_are_sent()
    ensures { HonestFilesAreSent }
{}

/// The law of what is heard: a block of a life is complete exactly where the symbols that were heard of it determine it.
/// It does nothing.
pub fn complete_by_heard()
    ensures { CompleteByHeard }
{}

/// The law of orders: in whichever order symbols of a file are heard, and however often, the same blocks are complete,
/// and where all are, the file is the one that was sent. It does nothing.
pub fn two_orders_one_file()
    ensures { TwoOrdersOneFile }
{}
