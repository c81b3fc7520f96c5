//! The law that told inputs come to a judgement. The function does nothing: a caller learns the law.
ghost use Rattle.judged_texts.specs.Some.{IsSomeJudgement, IsPlainJudgement};

use trial_text::laws::made_reading;

/// Told inputs come to a judgement, whatever their bytes are: the standard input and the side file settle how a job
/// ends. Of jobs that test a journal it is said that there cannot be none.
pub fn some_judgement()
    ensures some { IsSomeJudgement }
    ensures plain { IsPlainJudgement }
{
    made_reading();
}
