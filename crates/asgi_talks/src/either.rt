//! A task of one of two kinds.
ghost use Rattle.asgi_talks.specs.Either.{EitherAnswers, EitherStands};

use asgi_apps::{AppFault, AppTask};
use asgi_pipes::AppEnd;
use futures::task::{Context, Poll};

/// A task of one of two kinds: for an application that passes some scopes on to another one, and
/// answers the others itself. It is polled as the task that it holds, and promises what that does.
#[derive(Drop)]
pub enum Either<T, U> {
    /// A task of the first kind.
    First(T),
    /// A task of the second kind.
    Second(U),
}

impl<T: AppTask, U: AppTask> AppTask for Either<T, U> {
    ghost use Rattle.asgi_talks.specs.Either.{either_keeps};

    ghost stands = { EitherStands T.stands U.stands };

    ghost answers = { EitherAnswers T.answers U.answers };

    fn poll<E: AppEnd>(&mut self, cx: &mut Context<'_>, end: &mut E) -> Poll<Result<(), AppFault>> {
        match self {
            Either::First(task) => task.poll(cx, end),
            Either::Second(task) => task.poll(cx, end),
        }
    }

    ghost keeps = { either_keeps T.stands T.answers U.stands U.answers T.keeps U.keeps };
}
