ghost use Rattle.std.specs.Prelude.{◌≡◌, ◌≤◌, List};
ghost use Rattle.vmv_words.specs.Services.{Service, AsksService, AsksNoService, service_workers};
ghost use Rattle.vmv_words.specs.Words.{Word, Request, Asks, workers_of};

/// Words ask for one thing at most.
pub fn words_ask_for_one_thing()
    ensures { (words : List Word) (one other : Request) → Asks words one → Asks words other → one ≡ other }
{}

/// What words ask for is done by 1 to 64 workers.
pub fn words_ask_for_few_workers()
    ensures { (words : List Word) (request : Request) → Asks words request → (1 ≤ workers_of request) × (workers_of request ≤ 64) }
{}

/// Words ask for one service at most.
pub fn words_ask_for_one_service()
    ensures { (words : List Word) (one other : Service) → AsksService words one → AsksService words other → one ≡ other }
{}

/// Words that ask for something else ask for no service.
pub fn words_ask_for_no_service_beside()
    ensures { (words : List Word) (request : Request) → Asks words request → AsksNoService words }
{}

/// A service that words ask for is done by 1 to 64 workers.
pub fn services_are_done_by_few_workers()
    ensures { (words : List Word) (asked : Service) → AsksService words asked → (1 ≤ service_workers asked) × (service_workers asked ≤ 64) }
{}
