//! Laws of many calls in a row: contracts of functions with no code.
ghost use Rattle.asgi_exchange.specs.Exchange.{Exchange};
ghost use Rattle.asgi_exchange.specs.Schedules.{ConnStep, conn_after, ConnGoesOn, AppStep, app_after, AppGoesOn};
ghost use Rattle.asgi_exchange.specs.Views.{ConnView, AppView};

/// The connection's half goes on from where it is by no step, by one, and by more after those.
pub fn connection_goes_on<A, W>()
    ensures stays { (x : Exchange A W) (view : ConnView A W) → ConnGoesOn x view view }
    ensures steps { (x : Exchange A W) (view : ConnView A W) (step : ConnStep A) → ConnGoesOn x view (conn_after x view step) }
    ensures follows { (x : Exchange A W) (old view new : ConnView A W) → ConnGoesOn x old view → ConnGoesOn x view new → ConnGoesOn x old new }
{}

/// The same for the application's half.
pub fn application_goes_on<A, W>()
    ensures stays { (x : Exchange A W) (view : AppView) → AppGoesOn x view view }
    ensures steps { (x : Exchange A W) (view : AppView) (step : AppStep) → AppGoesOn x view (app_after x view step) }
    ensures follows { (x : Exchange A W) (old view new : AppView) → AppGoesOn x old view → AppGoesOn x view new → AppGoesOn x old new }
{}
